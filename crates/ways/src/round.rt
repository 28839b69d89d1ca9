// The steps of a cycle of negative sum. The rows are gone through in order; the first edge that closes such a cycle with edges of the rows
// before its own closes it with a shortest way back over them.
ghost use Rattle.std.specs.Prelude.{◌≡◌, ◌&&◌, ◌+◌, ◌<◌, ◌/◌, ltb, set};
ghost use Rattle.tables.specs.Tables.{side};
ghost use Rattle.ways.specs.Steps.{with_step};
ghost use Rattle.ways.specs.Toward.{ExtendAsks};
ghost use Rattle.ways.specs.Round.{closes_by, ClosingAsks, Closing, FinishAsks, RoundAsks, RoundOf};

use crate::steps::{Step, Way, is_edge, no_way, step_at};
use crate::toward::way;
use rows::{SHEET, fill};
use tables::{BIAS, NONE, Part, ROOM, SIDE};

const MIDDLE: u64 = BIAS as u64;

const NOWHERE: u64 = NONE as u64;

// Whether some way leads back from a step's end to its start, and comes to less than zero with it.
fn closes(all: &[u32; ROOM], step: Step) -> bool
    requires { ExtendAsks step 0 }
    ensures { result ≡ closes_by all.now step }
{
    let from = step.from;
    let to = step.to;
    let back = u64::from(all[to * SIDE + from]);
    (back < NOWHERE) & (back + step.up < MIDDLE + step.down)
}

// Whether edge `k` does over the edges of the rows before its own, whose distances are left in `all`.
fn closing(
    sheet: &[u32; SHEET],
    durations: &[u64; SIDE],
    n: usize,
    k: usize,
    all: &mut [u32; ROOM],
) -> bool
    requires { ClosingAsks sheet.now durations.now n k }
    ensures { Closing sheet.now durations.now n k all.new result }
{
    if !is_edge(sheet, k / 2) {
        return false;
    }
    fill(&mut *all, Part::All, sheet, durations, n, k / 2);
    closes(&*all, step_at(sheet, durations, k))
}

// The way with a step more.
fn with_step(way: Way, step: Step) -> Way
    requires { way.count < side }
    ensures { result ≡ with_step way step }
{
    let count = way.count;
    let mut steps = way.steps;
    steps[count] = step;
    Way {
        count: count + 1,
        steps,
    }
}

// The way back, and edge `k`.
fn finished(
    all: &[u32; ROOM],
    sheet: &[u32; SHEET],
    durations: &[u64; SIDE],
    n: usize,
    k: usize,
) -> Way
    requires { FinishAsks sheet.now durations.now n k all.now }
    ensures { RoundOf sheet.now durations.now (k / 2 + 1) result }
{
    let step = step_at(sheet, durations, k);
    let from = step.from;
    let to = step.to;
    let back = way(all, sheet, durations, k / 2, n, to, from);
    with_step(back, step)
}

// The steps of a cycle of negative sum over the edges of the first `m` rows, where there is one.
pub fn round_of(
    sheet: &[u32; SHEET],
    durations: &[u64; SIDE],
    m: usize,
    n: usize,
    all: &mut [u32; ROOM],
) -> Way
    requires { RoundAsks sheet.now durations.now m n }
    ensures { RoundOf sheet.now durations.now m result }
{
    let end = 2 * m;
    for k in 0..end {
        if closing(sheet, durations, n, k, &mut *all) {
            return finished(&*all, sheet, durations, n, k);
        }
    }
    no_way()
}
