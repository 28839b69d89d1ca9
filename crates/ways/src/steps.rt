// The edges of a sheet's rows at some durations, one after the other: edge 2q and edge 2q + 1 are those of row q, of a link there and
// back, of any other row the same edge twice.
ghost use Rattle.std.specs.Prelude.{◌≡◌, ◌&&◌, [], ◌+◌, ◌/◌, ◌<◌, ◌≤◌, ◌^◌, min, ltb, set};
ghost use Rattle.plan.specs.Limits.{most_records};
ghost use Rattle.tables.specs.Tables.{side};
ghost use Rattle.rows.specs.Sheet.{over_at, kind_at};
ghost use Rattle.ways.specs.Steps.{step_of, step_at, is_edge, no_steps, way_as};

use rows::{ORDINARY_ROW, Row, SHEET, WAIT_ROW, row_at};
use tables::SIDE;

// A step of a way: the row that it goes by, where it leaves and where it leads, and its length, `up` less `down`.
#[derive(Clone, Copy)]
pub struct Step {
    pub row: usize,
    pub from: usize,
    pub to: usize,
    pub up: u64,
    pub down: u64,
}

pub const NO_STEP: Step = Step {
    row: 0,
    from: 0,
    to: 0,
    up: 0,
    down: 0,
};

// A way needs no more steps than there can be points.
pub const MOST_STEPS: usize = SIDE;

// The steps of a way, so many of them; the room after them is zero.
// A room with its length beside it: the project has no heap.
#[derive(Clone, Copy)]
pub struct Way {
    pub count: usize,
    pub steps: [Step; MOST_STEPS],
}

// The edge of a row, whose link lasts `p`; of a link the one back, if so.
fn step_of(row: Row, q: usize, p: u64, back: bool) -> Step
    ensures { result ≡ step_of row q p back }
{
    let from = row.from as usize;
    let to = row.to as usize;
    if row.kind == ORDINARY_ROW {
        return Step {
            row: q,
            from,
            to,
            up: row.first,
            down: row.second,
        };
    }
    if row.kind == WAIT_ROW {
        return Step {
            row: q,
            from,
            to,
            up: 0,
            down: row.first.min(p),
        };
    }
    if back {
        return Step {
            row: q,
            from: to,
            to: from,
            up: 0,
            down: p,
        };
    }
    Step {
        row: q,
        from,
        to,
        up: p,
        down: 0,
    }
}

// Edge `k` of the sheet at the durations.
pub(crate) fn step_at(sheet: &[u32; SHEET], durations: &[u64; SIDE], k: usize) -> Step
    requires { (k / 2 < most_records) × (over_at sheet.now (k / 2) < side) }
    ensures { result ≡ step_at sheet.now durations.now k }
{
    let q = k / 2;
    let row = row_at(sheet, q);
    let p = durations[row.over as usize];
    step_of(row, q, p, k % 2 == 1)
}

// Whether row `q` has an edge at all.
pub(crate) fn is_edge(sheet: &[u32; SHEET], q: usize) -> bool
    requires { q < most_records }
    ensures { result ≡ is_edge (kind_at sheet.now q) }
{
    let row = row_at(sheet, q);
    (1 < row.kind) & (row.kind < 5)
}

// A way without steps.
pub fn no_way() -> Way
    ensures { result ≡ way_as [] }
{
    let steps = no_steps();
    Way { count: 0, steps }
}

// No steps yet.
pub(crate) fn no_steps() -> [Step; SIDE]
    ensures { result ≡ no_steps }
{
    [NO_STEP; SIDE]
}
