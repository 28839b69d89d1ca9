// The rooms of an engine that keeps counts, filled from a plan for the fresh board: its records as rows, the three lists of them, and
// what is kept. Takes any plan, and rooms that hold any numbers. An inner room: `begin` serves `engine`, `list` also
// `steps`.

#![tactic(auto)]

ghost use Rattle.std.specs.Prelude.{◌≤◌};
ghost use Rattle.plan.specs.Limits.{most_records};
ghost use Rattle.plan.specs.APlan.{records_of};
ghost use Rattle.neighbours.specs.Lists.{key_at, Indexed};
ghost use Rattle.kept.specs.Begins.{Begun};
ghost use Rattle.rooms.specs.Filling.{Filled, BeginsWith};

mod begins;

use begins::begin_kept;
use kept::KEPT;
use links::{Links, links_of};
use neighbours::{LIST, build};
use plan::{ACCEPTED, ORDINARY, Plan, WAIT, check};
use rows::{SHEET, lay_out};

// The plan's own refusal, or number 0; and the plan's links.
// The links are handed out of a refused plan too: so no Result.
#[derive(Clone, Copy)]
pub struct Started {
    pub number: u32,
    pub place: u32,
    pub links: Links,
}

// The fields of a row by which it is listed: the point that sets its record free, its first point, and its second.
const TO: usize = 2;

const FROM: usize = 1;

const OVER: usize = 5;

// The kinds of record, as a row has them.
const ORDINARY_ROW: u64 = ORDINARY as u64;

const WAIT_ROW: u64 = WAIT as u64;

// The lists of the rows, and the counts.
pub fn list(
    rows: &[u32; SHEET],
    count: usize,
    into: &mut [u16; LIST],
    out: &mut [u16; LIST],
    ends: &mut [u16; LIST],
    kept: &mut [u32; KEPT],
)
    requires { count ≤ most_records }
    ensures into { Indexed (key_at rows.now 3 2) count into.new }
    ensures out { Indexed (key_at rows.now 3 1) count out.new }
    ensures ends { Indexed (key_at rows.now 4 5) count ends.new }
    ensures kept { Begun rows.now count kept.new }
{
    build(rows, ORDINARY_ROW, TO, count, &mut *into);
    build(rows, ORDINARY_ROW, FROM, count, &mut *out);
    build(rows, WAIT_ROW, OVER, count, &mut *ends);
    begin_kept(rows, count, &mut *kept);
}

// All rooms of a plan that is accepted.
fn fill(
    plan: Plan,
    rows: &mut [u32; SHEET],
    into: &mut [u16; LIST],
    out: &mut [u16; LIST],
    ends: &mut [u16; LIST],
    kept: &mut [u32; KEPT],
)
    requires { plan.count ≤ most_records }
    ensures { Filled (records_of plan) rows.new into.new out.new ends.new kept.new }
{
    lay_out(plan, &mut *rows);
    list(
        &*rows,
        plan.count as usize,
        &mut *into,
        &mut *out,
        &mut *ends,
        &mut *kept,
    );
}

// The plan's own refusal, and the rooms as they were; else number 0, and every number of the rooms is the plan's at the fresh board.
pub fn begin(
    plan: Plan,
    rows: &mut [u32; SHEET],
    into: &mut [u16; LIST],
    out: &mut [u16; LIST],
    ends: &mut [u16; LIST],
    kept: &mut [u32; KEPT],
) -> Started
    ensures { BeginsWith plan result rows.old into.old out.old ends.old kept.old rows.new into.new out.new ends.new kept.new }
{
    let found = check(plan);
    let links = links_of(plan);
    if found.number == ACCEPTED {
        fill(
            plan, &mut *rows, &mut *into, &mut *out, &mut *ends, &mut *kept,
        );
    }
    Started {
        number: found.number,
        place: found.place,
        links,
    }
}
