// One turn of the loop of the printing programs, whichever part the input is in and whether or not it is over: what of a piece is used, what
// is made of it, and where the machine stands then (`Turned` of `machine`). An inner room of the two programs: it asks that there is room
// for the lines, which its caller is proved to give. It reads and writes nothing; that is `printing`'s.

#![tactic(auto)]

ghost use Rattle.std.specs.Prelude.{◌≡◌, true, ◌+◌, ◌*◌, ◌≤◌, ◌<◌, length};
ghost use Rattle.plan.specs.Limits.{most_points, record_bytes};
ghost use Rattle.lines.specs.Text.{room};
ghost use Rattle.plan.specs.ReplyNumbers.{plan_in};
ghost use Rattle.stream.specs.Sheets.{read_front};
ghost use Rattle.feeding.specs.Ending.{OverPut};
ghost use Rattle.machine.specs.Feeds.{Turned};

use engine::{KEPT, LIST};
use feeding::put_last;
use machine::{Stage, plan_turn, stands};
use plan::{ACCEPTED, plan_in};
use rows::SHEET;
use saying::put_events;
use stream::read_front;

// How the sheet ends: its plan is read again where it stands. It is no part of `turn`, which would clear the room for a plan at each turn.
#[inline(never)]
fn put_over(
    over: bool,
    stage: Stage,
    front: &[u8],
    kept: &[u32; KEPT],
    left: usize,
    lines: &mut [u8],
) -> usize
    requires { room * 2 ≤ length lines.old }
    ensures { OverPut over stage.number (plan_in (read_front stage.part front.now)) kept.now left lines.old 0 lines.new result }
{
    let again = read_front(stage.part, front);
    put_last(over, stage.number, plan_in(again), kept, left, lines, 0)
}

// What of the piece is used and what is made of it, as the stage says: the plan part, events, or nothing where the plan is refused. Where the
// input is over the piece is what is left of it, less than a record, and what is made is the end.
pub fn turn(
    full: bool,
    over: bool,
    stage: Stage,
    front: &mut [u8],
    rows: &mut [u32; SHEET],
    into: &mut [u16; LIST],
    out: &mut [u16; LIST],
    ends: &mut [u16; LIST],
    kept: &mut [u32; KEPT],
    piece: &[u8],
    lines: &mut [u8],
) -> Stage
    requires { (room * (most_points + 4) ≤ length lines.old) × (over ≡ true → length piece.now < record_bytes) }
    ensures { Turned full over stage front.old rows.old into.old out.old ends.old kept.old piece.now lines.old front.new rows.new into.new out.new ends.new kept.new lines.new result }
{
    if !stage.begun {
        return plan_turn(
            full, over, stage, front, &mut *rows, &mut *into, &mut *out, &mut *ends, &mut *kept,
            piece, lines,
        );
    }
    if stage.number != ACCEPTED {
        return stands(stage, stage.events, piece.len(), 0);
    }
    if over {
        let end = put_over(over, stage, &*front, &*kept, piece.len(), lines);
        return stands(stage, stage.events, piece.len(), end);
    }
    let links = stage.links;
    let ponds = stage.ponds;
    let said = put_events(
        full,
        links,
        ponds,
        &*rows,
        &*into,
        &*out,
        &*ends,
        &mut *kept,
        piece,
        stage.events,
        lines,
        0,
    );
    stands(stage, said.events, said.used, said.end)
}
