// One projection of a plan: it has a cycle of negative sum, or a first pair of points that no shortest walk of negative edges
// and then non-negative ones joins, or it is good. An inner room of the plan test: some functions have a `requires`, which
// every caller is proved to meet.

#![tactic(auto)]

ghost use Rattle.rows.specs.Sheet.{SheetEdge, SheetReady};
ghost use Rattle.projection.specs.Findings.{FoundOf, JudgeReady};

use once::is_good;
use pairs::first_pair;
use rounds::settle;
use rows::{SHEET, fill};
use tables::{Part, ROOM, SIDE};

mod once;

// What is found of a projection: it is good, it has a cycle, or a first bad pair.
#[derive(Clone, Copy)]
pub enum Finding {
    Good,
    Cycle,
    Pair(u32, u32),
}

// What is found of it by the least ways.
fn judge_ways(
    all: &[u32; ROOM],
    durations: &[u64; SIDE],
    sheet: &[u32; SHEET],
    m: usize,
    n: usize,
    ways: &mut [u32; ROOM],
) -> Finding
    requires { JudgeReady sheet.now durations.now m n all.now }
    ensures { FoundOf (SheetEdge sheet.now durations.now m) result }
{
    if !fill(&mut *ways, Part::Rising, sheet, durations, n, m) {
        return Finding::Cycle;
    }
    settle(&mut *ways, sheet, durations, n, m);
    match first_pair(all, &*ways, n) {
        None => Finding::Good,
        Some((x, y)) => Finding::Pair(x, y),
    }
}

// What is found of the projection of a sheet's records that has these durations, where `all` has its distances.
pub fn judge_by(
    all: &[u32; ROOM],
    durations: &[u64; SIDE],
    sheet: &[u32; SHEET],
    m: usize,
    n: usize,
    ways: &mut [u32; ROOM],
) -> Finding
    requires { JudgeReady sheet.now durations.now m n all.now }
    ensures { FoundOf (SheetEdge sheet.now durations.now m) result }
{
    if is_good(all, durations, sheet, m, n, &mut *ways) {
        return Finding::Good;
    }
    judge_ways(all, durations, sheet, m, n, &mut *ways)
}

// What is found of the projection of a sheet's records that has these durations.
pub fn judge(
    durations: &[u64; SIDE],
    sheet: &[u32; SHEET],
    m: usize,
    n: usize,
    all: &mut [u32; ROOM],
    ways: &mut [u32; ROOM],
) -> Finding
    requires { SheetReady sheet.now durations.now m n }
    ensures { FoundOf (SheetEdge sheet.now durations.now m) result }
{
    if !fill(&mut *all, Part::All, sheet, durations, n, m) {
        return Finding::Cycle;
    }
    judge_by(&*all, durations, sheet, m, n, &mut *ways)
}
