// The end of the input, whichever part it ends in.
ghost use Rattle.std.specs.Prelude.{◌+◌, ◌*◌, ◌≤◌, ◌<◌, length};
ghost use Rattle.plan.specs.Limits.{most_points, record_bytes};
ghost use Rattle.lines.specs.Text.{room};
ghost use Rattle.machine.specs.Feeds.{Finishes};

use crate::Stage;
use crate::plan_part::plan_turn;
use engine::{KEPT, LIST};
use feeding::put_end;
use plan::{ACCEPTED, plan_in};
use rows::SHEET;
use stream::read_front;

// The input has ended, with some bytes of an unfinished record; answers where the last lines end. The plan is read again
// where it stands.
pub fn finish(
    full: bool,
    stage: Stage,
    front: &mut [u8],
    rows: &mut [u32; SHEET],
    into: &mut [u16; LIST],
    out: &mut [u16; LIST],
    ends: &mut [u16; LIST],
    kept: &mut [u32; KEPT],
    rest: &[u8],
    lines: &mut [u8],
) -> usize
    requires { (room * (most_points + 4) ≤ length lines.old) × (length rest.now < record_bytes) }
    ensures { Finishes full stage front.old rows.old into.old out.old ends.old kept.old rest.now lines.old lines.new result }
{
    if !stage.begun {
        let read = plan_turn(
            full, true, stage, front, &mut *rows, &mut *into, &mut *out, &mut *ends, &mut *kept,
            rest, lines,
        );
        return read.end;
    }
    if stage.number != ACCEPTED {
        return 0;
    }
    let again = read_front(stage.part, &*front);
    put_end(plan_in(again), &*kept, rest.len(), lines, 0)
}
