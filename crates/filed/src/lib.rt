// What the libraries answer of a plan file that is given as bytes: the reader's own refusal, or what is said of the plan that it reads to. It takes any
// bytes and any rooms. An inner room: it serves `ponds`. Nothing is asked of a caller.

#![tactic(auto)]

mod files;

pub use files::{check_file, day_file, test_file, worst_file};
