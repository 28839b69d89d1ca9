// Document 02, §5: the engine that keeps counts. `begin` fills the rooms that the caller lends from a plan; `take` gives an event's
// number, and where it is taken changes only what the records that name its points say; `reply` and `board_of` say how things stand.
// Every function takes rooms that hold any numbers and any bytes. proofs/Agreeing says that from the fresh board on, through any events,
// taken and refused, numbers, records, replies and boards are those of the plain engine, and what is kept for each point is a count over
// the whole plan.

#![tactic(auto)]

ghost use Rattle.std.specs.Prelude.{◌≡◌, ◌+◌, ◌≤◌};
ghost use Rattle.plan.specs.Limits.{most_points};
ghost use Rattle.kept.specs.Rooms.{kept_room};
ghost use Rattle.engine.specs.Takes.{TableAt, BoardIn, NumbersWith, TakesWith, RepliesWith};

use board::{Board, ROOM};
use events::event_in;
pub use kept::KEPT;
use kept::{CALLS, CLOCK, DONE, MINUTES, do_event};
use kept_windows::{bare_windows, named_at, windows_of};
use links::Links;
pub use neighbours::LIST;
use plan::{ACCEPTED, Refusal};
use planless::number_from;
use replies::{Reply, reply_from};
pub use rooms::{Started, begin};
use rows::SHEET;
use windows::{NOT_OPEN, record_beside, refusal};

// One number for each point, from a place of the room on.
fn table(kept: &[u32; KEPT], at: usize) -> [u32; ROOM]
    requires { at + most_points ≤ kept_room }
    ensures { TableAt kept.now at result }
{
    let mut t: [u32; ROOM] = [0; ROOM];
    for q in 0..ROOM {
        t[q] = kept[at + q];
    }
    t
}

// The board that the room holds.
pub fn board_of(kept: &[u32; KEPT]) -> Board
    ensures { BoardIn kept.now result }
{
    let minutes = table(kept, MINUTES);
    let calls = table(kept, CALLS);
    Board {
        clock: kept[CLOCK],
        done: kept[DONE],
        minutes,
        calls,
    }
}

// The number of an event, and the record beside it, which is looked for only where the number is 28.
fn number_of(
    links: Links,
    rows: &[u32; SHEET],
    out: &[u16; LIST],
    kept: &[u32; KEPT],
    event: &[u8],
) -> Refusal
    ensures { NumbersWith links rows.now out.now kept.now event.now result }
{
    let board = board_of(kept);
    let minutes = board.minutes;
    let w = bare_windows(kept, links.points, links.watched);
    let found = number_from(links, board.clock, board.done, minutes, w, event);
    if found.number != NOT_OPEN {
        return found;
    }
    let e = event_in(event);
    let named = named_at(rows, out, kept, w, e.point);
    refusal(
        NOT_OPEN,
        record_beside(links, board.done, named, e.point, NOT_OPEN),
    )
}

// Takes an event: number 0, and its points are done; or a number with the record beside it, and every number of the room is as it was.
pub fn take(
    links: Links,
    rows: &[u32; SHEET],
    into: &[u16; LIST],
    out: &[u16; LIST],
    ends: &[u16; LIST],
    kept: &mut [u32; KEPT],
    event: &[u8],
) -> Refusal
    ensures { TakesWith links rows.now into.now out.now ends.now kept.old event.now result kept.new }
{
    let found = number_of(links, rows, out, &*kept, event);
    if found.number == ACCEPTED {
        let e = event_in(event);
        do_event(rows, into, out, ends, &mut *kept, e);
    }
    found
}

// The reply.
pub fn reply(links: Links, rows: &[u32; SHEET], out: &[u16; LIST], kept: &[u32; KEPT]) -> Reply
    ensures { RepliesWith links rows.now out.now kept.now result }
{
    let board = board_of(kept);
    let w = windows_of(rows, out, kept, links.points, links.watched);
    reply_from(links, board, w)
}
