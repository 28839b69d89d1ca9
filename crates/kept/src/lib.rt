// What is kept of a plan at a board, document 02, §5: for each point how many records still hold it shut, its window so far and its
// running waits, and the board itself; and what of it changes when an event's points are done. The records are rows, listed by their
// points, and an event reads only those that name its points; what one row says and changes is told by `kept_rows`. An inner room: it
// serves `engine` and `steps`. What the rooms hold may be any numbers: points are taken modulo 32, walks end, and sums stop at the
// largest number.

#![tactic(auto)]

mod changes;

pub use changes::do_event;
pub use kept_rows::{
    CALLS, CLOCK, DONE, HIGHS, KEPT, LAST, LOWS, MINUTES, RUNS, hold, is_holding, place, sum,
};
