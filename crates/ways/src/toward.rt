// The steps of a shortest way, by the table of all distances: a search back from the way's end over the edges that a shortest way to it
// can take, one point more at a time, and then the steps that it found, from the way's start on.
ghost use Rattle.std.specs.Prelude.{◌≡◌, ◌&&◌, ◌+◌, ◌<◌, ◌≤◌, eqb, ltb, get_or};
ghost use Rattle.tables.specs.Tables.{side};
ghost use Rattle.tables.specs.Entries.{raw};
ghost use Rattle.ways.specs.Toward.{ExtendAsks, extends_by, TakeAsks, takes_by, SearchAsks, Searched, ReachAsks, Reached, FollowAsks, Followed, WayAsks, WayOf};

use crate::steps::{Step, Way, is_edge, no_steps, step_at};
use rows::SHEET;
use tables::{ROOM, SIDE};

// What the search found: the order in which the points were reached, from 1, the way's end, on, and 0 where one was not; and the step by
// which each goes on.
#[derive(Clone, Copy)]
struct Found {
    order: [u32; SIDE],
    next: [Step; SIDE],
}

// Whether a step leads from a point that is not reached to one that is, and no way to `y` is shorter than by it.
fn extends(all: &[u32; ROOM], order: &[u32; SIDE], step: Step, y: usize) -> bool
    requires { ExtendAsks step y }
    ensures { result ≡ extends_by all.now order.now y step }
{
    let from = step.from;
    let to = step.to;
    let here = u64::from(all[from * SIDE + y]);
    let there = u64::from(all[to * SIDE + y]);
    (order[from] == 0) & ((0 < order[to]) & (here + step.down == there + step.up))
}

// Whether edge `k` is one and does.
fn takes(
    all: &[u32; ROOM],
    order: &[u32; SIDE],
    sheet: &[u32; SHEET],
    durations: &[u64; SIDE],
    k: usize,
    y: usize,
) -> bool
    requires { TakeAsks sheet.now durations.now k y }
    ensures { result ≡ takes_by sheet.now durations.now all.now order.now y k }
{
    if !is_edge(sheet, k / 2) {
        return false;
    }
    extends(all, order, step_at(sheet, durations, k), y)
}

// The first edge that does, or twice the number of rows.
fn search(
    all: &[u32; ROOM],
    order: &[u32; SIDE],
    sheet: &[u32; SHEET],
    durations: &[u64; SIDE],
    m: usize,
    y: usize,
) -> usize
    requires { SearchAsks sheet.now durations.now m y }
    ensures { Searched sheet.now durations.now m all.now order.now y result }
{
    let end = 2 * m;
    for k in 0..end {
        if takes(all, order, sheet, durations, k, y) {
            return k;
        }
    }
    end
}

// All points from which a way leads to `y`.
fn reach(
    all: &[u32; ROOM],
    sheet: &[u32; SHEET],
    durations: &[u64; SIDE],
    m: usize,
    n: usize,
    y: usize,
) -> Found
    requires { ReachAsks sheet.now durations.now m n all.now y }
    ensures { Reached sheet.now durations.now m n all.now y result.order result.next }
{
    let mut order = [0u32; SIDE];
    let mut next = no_steps();
    order[y] = 1;
    let mut count: u32 = 1;
    let mut k = search(all, &order, sheet, durations, m, y);
    // It goes on until the search finds nothing: no index is counted.
    while k < 2 * m {
        let step = step_at(sheet, durations, k);
        let from = step.from;
        count += 1;
        order[from] = count;
        next[from] = step;
        k = search(all, &order, sheet, durations, m, y);
    }
    Found { order, next }
}

// The steps from `x` on.
fn follow(order: [u32; SIDE], next: [Step; SIDE], x: usize) -> Way
    requires { FollowAsks order next x }
    ensures { Followed order next x result }
{
    let mut steps = no_steps();
    let mut count: usize = 0;
    let mut here = x;
    // It goes on from step to step: no index is counted.
    while 1 < order[here] {
        let step = next[here];
        steps[count] = step;
        count += 1;
        here = step.to;
    }
    Way { count, steps }
}

// The steps of a shortest way from `x` to `y` over the edges of the first `m` rows, whose distances `all` has.
pub fn way(
    all: &[u32; ROOM],
    sheet: &[u32; SHEET],
    durations: &[u64; SIDE],
    m: usize,
    n: usize,
    x: usize,
    y: usize,
) -> Way
    requires { WayAsks sheet.now durations.now m n all.now x y }
    ensures { WayOf sheet.now durations.now m (raw all.now x y) x y result }
{
    let reached = reach(all, sheet, durations, m, n, y);
    let order = reached.order;
    let next = reached.next;
    follow(order, next, x)
}
