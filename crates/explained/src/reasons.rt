// Why a projection of a sheet's records fails: by a pair of points, or by a cycle.
ghost use Rattle.std.specs.Prelude.{◌≡◌, ◌≤◌};
ghost use Rattle.lengths.specs.Lengths.{length_of};
ghost use Rattle.ways.specs.Steps.{ups, downs};
ghost use Rattle.explained.specs.Reasons.{steps_of, SumAsks, PairIn, PairShown, RoundIn, RoundShown};

use crate::drives::{Drives, drives_of};
use lengths::{Length, allowed, length_of};
use rows::{SHEET, fill};
use tables::{NONE, Part, ROOM, SIDE};
use ways::{Way, round_of, way};

// The drives; for a pair the shortest length and the best that is allowed; and the steps with their sum.
#[derive(Clone, Copy)]
pub struct Why {
    pub drives: Drives,
    pub shortest: Option<Length>,
    pub allowed: Option<Length>,
    pub way: Way,
    pub sum: Option<Length>,
}

// The sum of a way's steps.
fn sum_of(way: Way) -> Length
    requires { SumAsks way.count way.steps }
    ensures { result ≡ length_of (ups (steps_of way)) (downs (steps_of way)) }
{
    let count = way.count;
    let steps = way.steps;
    let mut up: u64 = 0;
    let mut down: u64 = 0;
    for k in 0..count {
        let step = steps[k];
        up += step.up;
        down += step.down;
    }
    length_of(up, down)
}

// The pair (x, y) of a projection that has no cycle.
pub(crate) fn pair_in(
    sheet: &[u32; SHEET],
    durations: &[u64; SIDE],
    m: usize,
    n: usize,
    x: usize,
    y: usize,
) -> Why
    requires { PairIn sheet.now durations.now m n x y }
    ensures { PairShown sheet.now durations.now m x y result }
{
    let mut all = [NONE; ROOM];
    let mut ways = [NONE; ROOM];
    let best = allowed(sheet, durations, m, n, x, y, &mut all, &mut ways);
    fill(&mut all, Part::All, sheet, durations, n, m);
    let found = way(&all, sheet, durations, m, n, x, y);
    let length = Some(sum_of(found));
    let drives = drives_of(sheet, durations, m);
    Why {
        drives,
        shortest: length,
        allowed: best,
        way: found,
        sum: length,
    }
}

// A cycle of a projection that has one.
pub(crate) fn round_in(sheet: &[u32; SHEET], durations: &[u64; SIDE], m: usize, n: usize) -> Why
    requires { RoundIn sheet.now durations.now m n }
    ensures { RoundShown sheet.now durations.now m result }
{
    let mut all = [NONE; ROOM];
    let found = round_of(sheet, durations, m, n, &mut all);
    let length = sum_of(found);
    let drives = drives_of(sheet, durations, m);
    Why {
        drives,
        shortest: None,
        allowed: None,
        way: found,
        sum: Some(length),
    }
}
