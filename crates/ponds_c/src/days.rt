// The engine that keeps counts, over rooms that the caller lends: begun from a plan file, an event taken, the reply and the board.
ghost use Rattle.std.specs.Prelude.{◌≡◌};
ghost use Rattle.hulls.specs.Rooms.{board_in, board_room};
ghost use Rattle.day_rooms.specs.Days.{BeginsFrom, TakesFrom, RepliesFrom};

use engine::{KEPT, LIST};
use hulls::{BOARD, LINKS, REPLY};
use rows::SHEET;

// The plan's own refusal with its record, and every room as it was; or 0, and the rooms are the plan's at the fresh board.
#[unsafe(no_mangle)]
pub extern "C" fn ponds_begin(
    file: &[u8],
    links: &mut [u32; LINKS],
    rows: &mut [u32; SHEET],
    into: &mut [u16; LIST],
    out: &mut [u16; LIST],
    ends: &mut [u16; LIST],
    kept: &mut [u32; KEPT],
) -> u64
    ensures { BeginsFrom file.now links.old rows.old into.old out.old ends.old kept.old result links.new rows.new into.new out.new ends.new kept.new }
{
    ponds::ponds_begin(file, links, rows, into, out, ends, kept)
}

// Takes an event: 21 to 30 with the record beside 28, and the room as it was; or 0, and its points are done.
#[unsafe(no_mangle)]
pub extern "C" fn ponds_take(
    links: &[u32; LINKS],
    rows: &[u32; SHEET],
    into: &[u16; LIST],
    out: &[u16; LIST],
    ends: &[u16; LIST],
    kept: &mut [u32; KEPT],
    event: &[u8],
) -> u64
    ensures { TakesFrom links.now rows.now into.now out.now ends.now kept.old event.now result kept.new }
{
    ponds::ponds_take(links, rows, into, out, ends, kept, event)
}

// The reply into its room, and 0.
#[unsafe(no_mangle)]
pub extern "C" fn ponds_reply(
    links: &[u32; LINKS],
    rows: &[u32; SHEET],
    out: &[u16; LIST],
    kept: &[u32; KEPT],
    room: &mut [u32; REPLY],
) -> u64
    ensures answer { result ≡ 0 }
    ensures room { RepliesFrom links.now rows.now out.now kept.now room.new }
{
    ponds::ponds_reply(links, rows, out, kept, room)
}

// The board into its room, and 0.
#[unsafe(no_mangle)]
pub extern "C" fn ponds_board(kept: &[u32; KEPT], room: &mut [u32; BOARD]) -> u64
    ensures answer { result ≡ 0 }
    ensures room { room.new ≡ board_room (board_in kept.now) }
{
    ponds::ponds_board(kept, room)
}
