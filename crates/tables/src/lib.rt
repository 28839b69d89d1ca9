// Tables of distances, and how one is closed. An inner room of the plan test: some functions have a `requires`, which every
// caller is proved to meet. Nothing here knows of plans.

#![tactic(auto)]

mod table;

pub use table::{BIAS, FAR, NONE, Part, ROOM, SIDE, begin, close, lesser, offer_of, row_by};
