// The parts of the printing programs, on rooms that are lent: the plan part of the input is kept piece by piece, the rooms of the plan
// that it reads to are filled, and what is left to print is made at the end. The events between are `saying`'s. Every function here has an exact contract;
// which of them is called is `machine`'s, and reading and writing are `printing`'s. An inner room of the two programs: some functions have a `requires`, that there is room, which
// every caller is proved to meet.

#![tactic(auto)]

mod begun;
mod ending;
mod front;

pub use begun::{Begun, begin_read, put_end};
pub use ending::{keep_part, put_last};
pub use front::{Part, keep_plan, keep_rest};
