// A piece of the input, whichever part it belongs to.
ghost use Rattle.std.specs.Prelude.{◌≡◌, ◌≤◌, length};
ghost use Rattle.saying.specs.Makes.{most_made};
ghost use Rattle.machine.specs.Feeds.{Feeds};

use crate::Stage;
use crate::plan_part::plan_turn;
use engine::{KEPT, LIST};
use plan::ACCEPTED;
use rows::SHEET;
use saying::put_events;

// What of the piece is used and what is made of it, as the stage says: the plan part, events, or nothing where the plan is refused.
pub fn feed(
    full: bool,
    stage: Stage,
    front: &mut [u8],
    rows: &mut [u32; SHEET],
    into: &mut [u16; LIST],
    out: &mut [u16; LIST],
    ends: &mut [u16; LIST],
    kept: &mut [u32; KEPT],
    input: &[u8],
    lines: &mut [u8],
) -> Stage
    requires { most_made ≤ length lines.old }
    ensures fed { Feeds full stage front.old rows.old into.old out.old ends.old kept.old input.now lines.old front.new rows.new into.new out.new ends.new kept.new lines.new result }
    ensures within { result.used ≤ length input.now }
{
    if !stage.begun {
        return plan_turn(
            full, false, stage, front, &mut *rows, &mut *into, &mut *out, &mut *ends, &mut *kept,
            input, lines,
        );
    }
    let links = stage.links;
    let ponds = stage.ponds;
    if stage.number != ACCEPTED {
        return Stage {
            begun: true,
            number: stage.number,
            part: stage.part,
            events: stage.events,
            links,
            ponds,
            used: input.len(),
            end: 0,
        };
    }
    let said = put_events(
        full,
        links,
        ponds,
        &*rows,
        &*into,
        &*out,
        &*ends,
        &mut *kept,
        input,
        stage.events,
        lines,
        0,
    );
    Stage {
        begun: true,
        number: ACCEPTED,
        part: stage.part,
        events: said.events,
        links,
        ponds,
        used: said.used,
        end: said.end,
    }
}
