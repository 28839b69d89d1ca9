// The engine that keeps counts, over rooms that the caller lends, for programs in other languages: begun from a plan file, an event taken, the reply and
// the board. What the rooms hold may be any numbers, and bytes have any length. An inner room: it serves `ponds`. Nothing is asked of a caller.

#![tactic(auto)]

ghost use Rattle.std.specs.Prelude.{◌≡◌};
ghost use Rattle.hulls.specs.Rooms.{board_in, board_room};
ghost use Rattle.day_rooms.specs.Days.{BeginsFrom, TakesFrom, RepliesFrom};

use engine::{KEPT, LIST, begin, reply, take};
use halves::answer;
use hulls::{BOARD, LINKS, REPLY, board_in, board_room, links_in, links_room, reply_room};
use plan::ACCEPTED;
use plan_file::read;
use rows::SHEET;

// The plan's own refusal with its record, and every room as it was; or 0, and the rooms are the plan's at the fresh board.
pub fn begin_file(
    file: &[u8],
    links: &mut [u32; LINKS],
    rows: &mut [u32; SHEET],
    into: &mut [u16; LIST],
    out: &mut [u16; LIST],
    ends: &mut [u16; LIST],
    kept: &mut [u32; KEPT],
) -> u64
    ensures { BeginsFrom file.now links.old rows.old into.old out.old ends.old kept.old result links.new rows.new into.new out.new ends.new kept.new }
{
    let plan = match read(file) {
        Ok(plan) => plan,
        Err(refusal) => return answer(refusal.number, refusal.place),
    };
    let started = begin(plan, rows, into, out, ends, kept);
    let room = links_room(started.links);
    *links = room;
    answer(ACCEPTED, 0)
}

// Takes an event: 21 to 30 with the record beside 28, and the room as it was; or 0, and its points are done.
pub fn take_event(
    links: &[u32; LINKS],
    rows: &[u32; SHEET],
    into: &[u16; LIST],
    out: &[u16; LIST],
    ends: &[u16; LIST],
    kept: &mut [u32; KEPT],
    event: &[u8],
) -> u64
    ensures { TakesFrom links.now rows.now into.now out.now ends.now kept.old event.now result kept.new }
{
    let found = take(links_in(links), rows, into, out, ends, kept, event);
    answer(found.number, found.place)
}

// The reply into its room, and 0.
pub fn put_reply(
    links: &[u32; LINKS],
    rows: &[u32; SHEET],
    out: &[u16; LIST],
    kept: &[u32; KEPT],
    room: &mut [u32; REPLY],
) -> u64
    ensures answer { result ≡ 0 }
    ensures room { RepliesFrom links.now rows.now out.now kept.now room.new }
{
    let said = reply(links_in(links), rows, out, kept);
    let numbers = reply_room(said);
    *room = numbers;
    0
}

// The board into its room, and 0.
pub fn put_board(kept: &[u32; KEPT], room: &mut [u32; BOARD]) -> u64
    ensures answer { result ≡ 0 }
    ensures room { room.new ≡ board_room (board_in kept.now) }
{
    let board = board_in(kept);
    let numbers = board_room(board);
    *room = numbers;
    0
}
