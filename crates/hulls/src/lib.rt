// Links, boards and replies as numbers in a room that the caller lends, for programs in other languages, to which no struct crosses. It takes
// any values and rooms of any content. An inner room: it serves `ponds`.

#![tactic(auto)]

mod lists;

pub use link_numbers::{LINKS, links_in, links_room};
pub use lists::{BOARD, REPLY, board_in, board_room, reply_room};
