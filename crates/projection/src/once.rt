// Whether a projection is good, by one round: each distance is that of a walk of non-negative edges, or that of a negative edge and then
// a distance. A projection of which this does not show is judged by its least ways.
ghost use Rattle.std.specs.Prelude.{◌≡◌, true, ◌<◌, ◌≤◌, ◌-◌};
ghost use Rattle.network.specs.Passing.{Good};
ghost use Rattle.plan.specs.Limits.{farthest};
ghost use Rattle.tables.specs.Tables.{side};
ghost use Rattle.rows.specs.Sheet.{SheetEdge};
ghost use Rattle.projection.specs.Findings.{JudgeReady};
ghost use Rattle.projection.specs.Once.{FellBy, OnceReady, OnceDone};
ghost use Rattle.rounds.specs.Ways.{Capped, LowerReady};

use pairs::first_pair;
use rounds::{fall_of, less, lower_by};
use rows::{SHEET, fill, row_at};
use tables::{BIAS, Part, ROOM, SIDE};

// No walk from `x` to `z` is shorter than an edge that is `drop` below zero. Any other edge begins no shortest walk.
fn is_tight(all: &[u32; ROOM], x: usize, z: usize, drop: u32) -> bool
    requires { (x < side) × (z < side) × (drop ≤ farthest) }
{
    all[x * SIDE + z] == BIAS - drop
}

// Row `x` lowered by row `z` of the distances less `drop`, where the edge can begin a shortest walk.
fn fall_by(all: &[u32; ROOM], t: &mut [u32; ROOM], n: usize, x: usize, z: usize, drop: u32)
    requires { LowerReady n x z drop all.now × Capped t.old × (drop ≤ farthest) }
    ensures { FellBy n x z drop all.now t.old t.new }
{
    if is_tight(all, x, z, drop) {
        let l = less(all, n, x, z, drop);
        lower_by(&mut *t, x, l);
    }
}

// What the negative edge of row `q` does.
fn ease_by(
    all: &[u32; ROOM],
    t: &mut [u32; ROOM],
    sheet: &[u32; SHEET],
    durations: &[u64; SIDE],
    n: usize,
    m: usize,
    q: usize,
)
    requires { OnceReady sheet.now durations.now m n all.now t.old × (q < m) }
    ensures { OnceDone sheet.now durations.now m n all.now t.old t.new }
{
    let row = row_at(sheet, q);
    let p = durations[row.over as usize];
    let fall = fall_of(row, p);
    if 0 < fall.drop {
        fall_by(
            all,
            &mut *t,
            n,
            fall.from as usize,
            fall.to as usize,
            fall.drop as u32,
        );
    }
}

// One round over the rows.
fn once(
    all: &[u32; ROOM],
    t: &mut [u32; ROOM],
    sheet: &[u32; SHEET],
    durations: &[u64; SIDE],
    n: usize,
    m: usize,
)
    requires { OnceReady sheet.now durations.now m n all.now t.old }
    ensures { OnceDone sheet.now durations.now m n all.now t.old t.new }
{
    for q in 0..m {
        ease_by(all, &mut *t, sheet, durations, n, m, q);
    }
}

// Whether the projection of a sheet's records that has these durations shows as good, where `all` has its distances.
pub(crate) fn is_good(
    all: &[u32; ROOM],
    durations: &[u64; SIDE],
    sheet: &[u32; SHEET],
    m: usize,
    n: usize,
    ways: &mut [u32; ROOM],
) -> bool
    requires { JudgeReady sheet.now durations.now m n all.now }
    ensures { result ≡ true → Good (SheetEdge sheet.now durations.now m) }
{
    if !fill(&mut *ways, Part::Rising, sheet, durations, n, m) {
        return false;
    }
    once(all, &mut *ways, sheet, durations, n, m);
    first_pair(all, &*ways, n).is_none()
}
