// What one row says and changes of what is kept of a plan at a board, document 02, §5: the places of the room, whether the row holds a point
// shut, its window so far and its running wait, and the counts and windows once one of its points is done. An inner room: it serves
// `kept`, which goes over the rows and hands on what others need of it. What the room holds may be any numbers: points are taken modulo
// 32, and sums stop at the largest number.

#![tactic(auto)]

ghost use Rattle.std.specs.Prelude.{◌≡◌, ◌+◌, ◌-◌, ◌%◌, min};
ghost use Rattle.plan.specs.Limits.{most_points};
ghost use Rattle.plan.specs.APlan.{one};
ghost use Rattle.lowhigh.specs.Rules.{never};
ghost use Rattle.kept_rows.specs.Rows.{reach_of, holding, low_by, run_by, high_by, freed, bounded, running};

use lowhigh::{FARTHEST, NEVER};
use plan::{ORDINARY, WAIT};
use points::has;
use records::one_if;
use rows::Row;
use tables::SIDE;

// ---- the places of the room: how many records hold each point, then its window so far, its running waits, its High, 100,000 up,
// its minute and the number of its event; then the clock, the done points, and the number of the last event

pub const LOWS: usize = SIDE;

pub const RUNS: usize = LOWS + SIDE;

pub const HIGHS: usize = RUNS + SIDE;

pub const MINUTES: usize = HIGHS + SIDE;

pub const CALLS: usize = MINUTES + SIDE;

pub const CLOCK: usize = CALLS + SIDE;

pub const DONE: usize = CLOCK + 1;

pub const LAST: usize = DONE + 1;

pub const KEPT: usize = LAST + 1;

// The kinds of record, as a row has them.
const ORDINARY_ROW: u64 = ORDINARY as u64;

const WAIT_ROW: u64 = WAIT as u64;

const PLACES: u64 = SIDE as u64;

// Past every number of 32 bits.
const WORD: u64 = 4294967296;

// ---- what one row says

// The place of a point.
pub fn place(x: u64) -> u8
    ensures { result ≡ x % most_points }
{
    (x % PLACES) as u8
}

// The sum, and the largest number where there is none.
pub fn sum(x: u32, y: u32) -> u32
    ensures { result ≡ min (x + y) never }
{
    x.saturating_add(y)
}

// From the minute t, so much up and so much down.
fn reach(t: u32, base: u32, up: u64, down: u64) -> u32
    ensures { result ≡ reach_of t base up down }
{
    let minute = (u64::from(t) + u64::from(base) + up % WORD).saturating_sub(down % WORD);
    minute.min(u64::from(NEVER)) as u32
}

// A row holds its first point shut until another is done: an ordinary one with negative d, or a wait.
pub fn is_holding(row: Row) -> bool
    ensures { result ≡ holding row }
{
    ((row.kind == ORDINARY_ROW) & (0 < row.second)) | (row.kind == WAIT_ROW)
}

// One where it does.
pub fn hold(row: Row) -> u32
    ensures { result ≡ one (holding row) }
{
    one_if(is_holding(row))
}

// The minute before which an ordinary row keeps its first point, where its second is done at t.
fn low_by(row: Row, t: u32) -> u32
    ensures { result ≡ low_by row t }
{
    if row.kind == ORDINARY_ROW {
        reach(t, 0, row.second, row.first)
    } else {
        0
    }
}

// The minute before which a wait keeps its point, where its link started at t and runs.
fn run_by(row: Row, t: u32) -> u32
    ensures { result ≡ run_by row t }
{
    if row.kind == WAIT_ROW {
        reach(t, 0, row.first, 0)
    } else {
        0
    }
}

// The minute, 100,000 up, past which an ordinary row does not let its second point come, where its first is done at t.
fn high_by(row: Row, t: u32) -> u32
    ensures { result ≡ high_by row t }
{
    if row.kind == ORDINARY_ROW {
        reach(t, FARTHEST, row.first, row.second)
    } else {
        NEVER
    }
}

// ---- what a row changes of what is kept, once one of its points is done

// The point that sets a row free is done at t.
pub fn free(row: Row, kept: &mut [u32; KEPT], t: u32)
    ensures { kept.new ≡ freed row t kept.old }
{
    let v = place(row.from) as usize;
    let holds = kept[v].saturating_sub(hold(row));
    let low = kept[LOWS + v].max(low_by(row, t));
    let run = kept[RUNS + v].max(run_by(row, t));
    kept[v] = holds;
    kept[LOWS + v] = low;
    kept[RUNS + v] = run;
}

// The first point of a row is done at t.
pub fn bound(row: Row, kept: &mut [u32; KEPT], t: u32)
    ensures { kept.new ≡ bounded row t kept.old }
{
    let v = place(row.over) as usize;
    let high = kept[HIGHS + v].min(high_by(row, t));
    kept[HIGHS + v] = high;
}

// A + w of a row, where it is a wait whose link is running.
pub fn run_now(row: Row, kept: &[u32; KEPT]) -> u32
    ensures { result ≡ running row kept.now }
{
    let a = place(row.to);
    let done = kept[DONE];
    let runs = has(done, a) & !has(done, place(row.over));
    if (row.kind == WAIT_ROW) & runs {
        reach(kept[MINUTES + a as usize], 0, row.first, 0)
    } else {
        0
    }
}
