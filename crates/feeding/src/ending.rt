// What is otherwise where the input ends with the piece.
ghost use Rattle.std.specs.Prelude.{◌≡◌, true, ◌+◌, ◌*◌, ◌≤◌, length};
ghost use Rattle.lines.specs.Text.{room};
ghost use Rattle.feeding.specs.Ending.{PartKept, OverPut};

use crate::begun::put_end;
use crate::front::{Part, keep_plan, keep_rest};
use engine::KEPT;
use plan::{ACCEPTED, Plan};

// The whole records of a piece of the plan part, up to the mark; or, where the input is over, its last bytes.
pub fn keep_part(over: bool, front: &mut [u8], length: u64, piece: &[u8]) -> Part
    ensures { PartKept over front.old length piece.now front.new result }
{
    if !over {
        return keep_plan(front, length, piece);
    }
    Part {
        length: keep_rest(front, length, piece),
        used: piece.len(),
        marked: true,
    }
}

// How the sheet of a plan ends that was read, where the input is over, with so many bytes of an unfinished record; else nothing.
pub fn put_last(
    over: bool,
    number: u32,
    plan: Plan,
    kept: &[u32; KEPT],
    left: usize,
    lines: &mut [u8],
    at: usize,
) -> usize
    requires { over ≡ true → at + room * 2 ≤ length lines.old }
    ensures { OverPut over number plan kept.now left lines.old at lines.new result }
{
    if !over {
        return at;
    }
    if number != ACCEPTED {
        return at;
    }
    put_end(plan, kept, left, lines, at)
}
