// Whether a record of a plan is needed beside the others: one run over the projections of the plan without it, which stops at the
// first in which the others alone are not good, or join the record's two points by no walk as short as it says. An inner room: its
// functions have a `requires`, which every caller is proved to meet.

#![tactic(auto)]

ghost use Rattle.std.specs.Prelude.{◌≡◌, ◌+◌, ◌≤◌};
ghost use Rattle.plan.specs.APlan.{records_of};
ghost use Rattle.plan.specs.Limits.{farthest};
ghost use Rattle.tables.specs.Entries.{middle};
ghost use Rattle.dropping.specs.Spare.{Told, Spare, FitAsks, EnoughRows, AllAsks, AllEnough, SpareAsks};

use choices::chosen;
use plan::{Gap, ORDINARY, Plan, Record, links_of, points_of, split};
use projection::{Finding, judge_by};
use rows::{SHEET, fill, lay_out};
use tables::{BIAS, NONE, Part, ROOM, SIDE};

// Whether one projection is good and reaches from `x` to `y` in `most`.
fn fits(
    durations: &[u64; SIDE],
    sheet: &[u32; SHEET],
    m: usize,
    n: usize,
    all: &mut [u32; ROOM],
    ways: &mut [u32; ROOM],
    x: usize,
    y: usize,
    most: u32,
) -> bool
    requires { FitAsks sheet.now durations.now m n x y most }
    ensures { Told (EnoughRows sheet.now durations.now m x y most) result }
{
    if !fill(&mut *all, Part::All, sheet, durations, n, m) {
        return false;
    }
    if most < all[x * SIDE + y] {
        return false;
    }
    match judge_by(&*all, durations, sheet, m, n, &mut *ways) {
        Finding::Good => true,
        Finding::Cycle => false,
        Finding::Pair(_, _) => false,
    }
}

// Whether each projection is, in order up to the first that is not, in the same two tables.
fn all_fit(
    sheet: &[u32; SHEET],
    m: usize,
    n: usize,
    links: usize,
    many: u32,
    x: usize,
    y: usize,
    most: u32,
) -> bool
    requires { AllAsks sheet.now m n links many x y most }
    ensures { Told (AllEnough sheet.now m n links many x y most) result }
{
    let mut all = [NONE; ROOM];
    let mut ways = [NONE; ROOM];
    let past = n + links;
    for i in 0..many {
        let w = chosen(sheet, past, links, many, i);
        if !fits(&w, sheet, m, n, &mut all, &mut ways, x, y, most) {
            return false;
        }
    }
    true
}

// A bound as a table has it.
fn bound(gap: Gap) -> u32
    requires { (gap.up ≤ farthest) × (gap.down ≤ farthest) }
    ensures { result + gap.down ≡ middle + gap.up }
{
    BIAS + gap.up - gap.down
}

// Whether an ordinary record is not needed beside those of a plan that does not have it, and has so many projections.
pub fn is_spare(r: Record, plan: Plan, many: u32) -> bool
    requires { SpareAsks plan r many }
    ensures { Told (Spare (records_of plan) r) result }
{
    if r.kind != ORDINARY {
        return false;
    }
    let mut sheet = [0u32; SHEET];
    lay_out(plan, &mut sheet);
    let n = points_of(plan) as usize;
    let links = links_of(plan) as usize;
    let most = bound(split(r.first));
    all_fit(
        &sheet,
        plan.count as usize,
        n,
        links,
        many,
        r.a as usize,
        r.b as usize,
        most,
    )
}
