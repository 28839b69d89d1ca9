// What a stream of records does to a sheet, and its lines in a buffer: the plan part, then events, each with what there is to
// print of it. Every function here has an exact contract; reading and writing are `printing`'s. An inner room of the two
// programs: some functions have a `requires`, which every caller is proved to meet.

#![tactic(auto)]

mod front;
mod many;
mod sheet;

pub use buffers::{append, behind, fits, within};
pub use front::read_front;
pub use sheet::{News, Sheet, Stage, is_mark};
