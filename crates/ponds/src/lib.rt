// The functions of our libraries for programs in C and in Rust: `rt staticlib ponds` puts them into one archive. Each reads what it is
// lent, calls one function of the libraries and hands back the answer as a number, whose lower half is the reply number and whose upper
// half is what stands beside it. What is lent may have any content, and bytes any length; a refusal leaves all of it as it was.

#![tactic(auto)]

mod days;
mod files;
mod made;
mod sheets;

pub use days::{ponds_begin, ponds_board, ponds_reply, ponds_take};
pub use files::{ponds_check, ponds_day, ponds_test, ponds_worst};
pub use made::{ponds_close, ponds_import, ponds_lighter};
pub use sheets::{ponds_calendar, ponds_verdict};
