// Ways through a projection of a plan laid out in rows: the steps of a shortest way from one point to another, and those of a cycle of
// negative sum. Each step is an edge of the row that it names. An inner room of `explained`: some functions have a `requires`, which
// every caller is proved to meet.

#![tactic(auto)]

mod round;
mod steps;
mod toward;

pub use round::round_of;
pub use steps::{MOST_STEPS, NO_STEP, Step, Way, no_way};
pub use toward::way;
