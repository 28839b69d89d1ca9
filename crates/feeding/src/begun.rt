// The rooms of a plan that is read are filled; and what is printed behind the events. Reading it is the caller's, so that no copy of a plan lies
// on the stack beneath the reading.
ghost use Rattle.std.specs.Prelude.{◌≡◌, ◌+◌, ◌*◌, ◌≤◌, length};
ghost use Rattle.plan.specs.Limits.{most_points};
ghost use Rattle.lines.specs.Text.{room};
ghost use Rattle.saying.specs.Makes.{most_made};
ghost use Rattle.feeding.specs.Parts.{FirstPut, ReadBegun, TailPut, EndPut};

use engine::{KEPT, LIST};
use links::Links;
use places::{ROOM, ponds_of};
use plan::{ACCEPTED, Plan, Refusal, plan_in};
use rows::SHEET;
use saying::{put_board, put_line};

// The plan's own refusal, or number 0; the links and the pond of each point; and where the lines end.
// Links, pond codes and lines are handed on, refused or not: so no Result.
#[derive(Clone, Copy)]
pub struct Begun {
    pub number: u32,
    pub links: Links,
    pub ponds: [u32; ROOM],
    pub end: usize,
}

// In full, the plan test, and what the fresh board is.
fn put_first(
    full: bool,
    plan: Plan,
    links: Links,
    ponds: [u32; ROOM],
    rows: &[u32; SHEET],
    out: &[u16; LIST],
    kept: &[u32; KEPT],
    lines: &mut [u8],
) -> usize
    requires { most_made ≤ length lines.old }
    ensures made { FirstPut full plan links ponds rows.now out.now kept.now lines.old lines.new result }
    ensures few { result ≤ room * (most_points + 2) }
{
    if !full {
        return 0;
    }
    let first = put_line(lines, 0, text::test_line(vee::test(plan)));
    put_board(links, ponds, rows, out, kept, lines, first)
}

// The plan part has ended, and reads to this.
pub fn begin_read(
    full: bool,
    reading: Result<Plan, Refusal>,
    rows: &mut [u32; SHEET],
    into: &mut [u16; LIST],
    out: &mut [u16; LIST],
    ends: &mut [u16; LIST],
    kept: &mut [u32; KEPT],
    lines: &mut [u8],
) -> Begun
    requires { most_made ≤ length lines.old }
    ensures begun { ReadBegun full reading rows.old into.old out.old ends.old kept.old lines.old rows.new into.new out.new ends.new kept.new lines.new result }
    ensures few { result.end ≤ room * (most_points + 2) }
{
    let plan = plan_in(reading);
    let started = engine::begin(
        plan, &mut *rows, &mut *into, &mut *out, &mut *ends, &mut *kept,
    );
    let links = started.links;
    let ponds = ponds_of(plan);
    if let Err(refusal) = reading {
        return Begun {
            number: refusal.number,
            links,
            ponds,
            end: put_line(lines, 0, text::plan_line(refusal.number, refusal.place)),
        };
    }
    Begun {
        number: ACCEPTED,
        links,
        ponds,
        end: put_first(full, plan, links, ponds, &*rows, &*out, &*kept, lines),
    }
}

// `tail` where so many bytes of an unfinished record are left.
fn put_tail(left: usize, lines: &mut [u8], at: usize) -> usize
    requires { at + room ≤ length lines.old }
    ensures { TailPut left lines.old at lines.new result }
{
    if left == 0 {
        return at;
    }
    put_line(lines, at, text::tail_line())
}

// `tail`, and how the sheet of a plan ends.
pub fn put_end(plan: Plan, kept: &[u32; KEPT], left: usize, lines: &mut [u8], at: usize) -> usize
    requires { at + room * 2 ≤ length lines.old }
    ensures { EndPut plan kept.now left lines.old at lines.new result }
{
    let end = put_tail(left, lines, at);
    put_line(lines, end, text::end_line(plan, engine::board_of(kept)))
}
