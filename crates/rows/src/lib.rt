// A plan laid out in rows of six numbers each, and the tables of the edges that they stand for at some durations. An inner
// room of the plan test: some functions have a `requires`, which every caller is proved to meet.

#![tactic(auto)]

mod layout;
mod sheet;

pub use layout::lay_out;
pub use sheet::{LINK_ROW, ORDINARY_ROW, Row, SHEET, WAIT_ROW, fill, row_at};
