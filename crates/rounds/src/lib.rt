// Tables of ways: walks of negative edges and then non-negative ones. The table of the non-negative edges, closed, becomes
// that of the least ways by rounds over the negative edges, each of which may lower the row of the point that it leaves by
// the row of the point that it leads to. They go on until a round changes nothing.

#![tactic(auto)]

ghost use Rattle.std.specs.Prelude.{◌≡◌, ◌+◌, ◌<◌, ◌≤◌};
ghost use Rattle.tables.specs.Entries.{nowhere};
ghost use Rattle.rounds.specs.Ways.{Capped, Dropped, DroppedRow, RowReady, RowLowered, LowerReady, LowerDone, fall_of, sum, RoundReady, RowDone, Rounded, Settled};

use rows::{LINK_ROW, ORDINARY_ROW, Row, SHEET, WAIT_ROW, row_at};
use tables::{FAR, NONE, ROOM, SIDE, lesser, row_by};

// The negative edge of a row: where it leaves, where it leads, and how far it is below zero, 0 where the row has none.
#[derive(Clone, Copy)]
pub struct Fall {
    pub from: u64,
    pub to: u64,
    pub drop: u64,
}

// `v` less `drop`, where a walk joins the two points.
fn dropped(v: u32, drop: u32) -> u32
    requires { v < nowhere → drop ≤ v }
    ensures { Dropped v drop result }
{
    if v < NONE { v - drop } else { FAR }
}

// Row `z` less `drop`.
pub fn less(t: &[u32; ROOM], n: usize, x: usize, z: usize, drop: u32) -> [u32; SIDE]
    requires { LowerReady n x z drop t.now }
    ensures { DroppedRow n z drop t.now result }
{
    row_by(t, n, z, |v| dropped(v, drop))
}

// Row `x` lowered by the row `l`, four entries at a time.
pub fn lower_by(t: &mut [u32; ROOM], x: usize, l: [u32; SIDE])
    requires { RowReady x l t.old }
    ensures { RowLowered x l t.old t.new }
{
    let here = x * SIDE;
    for j in 0..SIDE {
        t[here + j] = lesser(l[j], t[here + j]);
    }
}

// Row `x` lowered by row `z` less `drop`.
fn lower(t: &mut [u32; ROOM], n: usize, x: usize, z: usize, drop: u32)
    requires { LowerReady n x z drop t.old }
    ensures { LowerDone n x z drop t.old t.new }
{
    let l = less(&*t, n, x, z, drop);
    lower_by(&mut *t, x, l);
}

// The negative edge of a row, whose link lasts `p`.
pub fn fall_of(row: Row, p: u64) -> Fall
    ensures { result ≡ fall_of row p }
{
    if row.kind == ORDINARY_ROW {
        return Fall {
            from: row.from,
            to: row.to,
            drop: row.second.saturating_sub(row.first),
        };
    }
    if row.kind == WAIT_ROW {
        return Fall {
            from: row.from,
            to: row.to,
            drop: row.first.min(p),
        };
    }
    if row.kind == LINK_ROW {
        return Fall {
            from: row.to,
            to: row.from,
            drop: p,
        };
    }
    Fall {
        from: 0,
        to: 0,
        drop: 0,
    }
}

// What the negative edge of row `q` does.
fn ease(
    t: &mut [u32; ROOM],
    sheet: &[u32; SHEET],
    durations: &[u64; SIDE],
    n: usize,
    m: usize,
    q: usize,
)
    requires { RoundReady sheet.now durations.now m n t.old × (q < m) }
    ensures { RowDone sheet.now durations.now m n q t.old t.new }
{
    let row = row_at(sheet, q);
    let p = durations[row.over as usize];
    let fall = fall_of(row, p);
    if 0 < fall.drop {
        lower(
            &mut *t,
            n,
            fall.from as usize,
            fall.to as usize,
            fall.drop as u32,
        );
    }
}

// One round over the rows.
fn round(t: &mut [u32; ROOM], sheet: &[u32; SHEET], durations: &[u64; SIDE], n: usize, m: usize)
    requires { RoundReady sheet.now durations.now m n t.old }
    ensures { Rounded sheet.now durations.now m n m t.old t.new }
{
    for q in 0..m {
        ease(&mut *t, sheet, durations, n, m, q);
    }
}

// The sum of a table, which falls with each of its numbers.
fn total(t: &[u32; ROOM]) -> u64
    requires { Capped t.now }
    ensures { result ≡ sum t.now }
{
    let mut all: u64 = 0;
    for v in t {
        all += u64::from(*v);
    }
    all
}

// Rounds until nothing falls: the table of the least ways.
pub fn settle(
    t: &mut [u32; ROOM],
    sheet: &[u32; SHEET],
    durations: &[u64; SIDE],
    n: usize,
    m: usize,
)
    requires { RoundReady sheet.now durations.now m n t.old }
    ensures { Settled sheet.now durations.now m n t.new }
{
    let mut before = total(&*t);
    let mut more = true;
    // It goes on until nothing falls: no index is counted.
    while more {
        round(&mut *t, sheet, durations, n, m);
        let after = total(&*t);
        more = after < before;
        before = after;
    }
}
