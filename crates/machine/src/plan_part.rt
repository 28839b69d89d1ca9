// The plan part: its records are kept, and at the mark, or where the input ends, the plan is read.
ghost use Rattle.std.specs.Prelude.{◌≡◌, true, false, ◌+◌, ◌*◌, ◌≤◌, length};
ghost use Rattle.plan.specs.Limits.{most_points};
ghost use Rattle.lines.specs.Text.{room};
ghost use Rattle.saying.specs.Makes.{most_made};
ghost use Rattle.machine.specs.Feeds.{Turned};

use crate::Stage;
use engine::{KEPT, LIST};
use feeding::{begin_read, keep_part, put_last};
use plan::plan_in;
use rows::SHEET;
use stream::read_front;

// A piece of the plan part, or the rest of it with the mark, or, where the input is over, the last bytes of it.
// It is no part of its caller, which would clear the room for a plan at each piece.
#[inline(never)]
pub fn plan_turn(
    full: bool,
    over: bool,
    stage: Stage,
    front: &mut [u8],
    rows: &mut [u32; SHEET],
    into: &mut [u16; LIST],
    out: &mut [u16; LIST],
    ends: &mut [u16; LIST],
    kept: &mut [u32; KEPT],
    piece: &[u8],
    lines: &mut [u8],
) -> Stage
    requires room { most_made ≤ length lines.old }
    requires last { over ≡ true → room * (most_points + 4) ≤ length lines.old }
    requires unread { stage.begun ≡ false }
    ensures { Turned full over stage front.old rows.old into.old out.old ends.old kept.old piece.now lines.old front.new rows.new into.new out.new ends.new kept.new lines.new result }
{
    let part = keep_part(over, front, stage.part, piece);
    if !part.marked {
        let links = stage.links;
        let ponds = stage.ponds;
        return Stage {
            begun: false,
            number: stage.number,
            part: part.length,
            events: stage.events,
            links,
            ponds,
            used: part.used,
            end: 0,
        };
    }
    let reading = read_front(part.length, &*front);
    let begun = begin_read(
        full, reading, &mut *rows, &mut *into, &mut *out, &mut *ends, &mut *kept, lines,
    );
    let links = begun.links;
    let ponds = begun.ponds;
    let plan = plan_in(reading);
    Stage {
        begun: true,
        number: begun.number,
        part: part.length,
        events: 0,
        links,
        ponds,
        used: part.used,
        end: put_last(over, begun.number, plan, &*kept, 0, lines, begun.end),
    }
}
