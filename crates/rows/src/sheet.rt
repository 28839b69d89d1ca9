// The sheet of a plan: its records as six numbers each, lent to the test, and the tables of the edges that they stand for
// at some durations.
ghost use Rattle.std.specs.Prelude.{◌≡◌, ◌+◌, ◌<◌};
ghost use Rattle.plan.specs.Limits.{most_records};
ghost use Rattle.rows.specs.Sheet.{SheetReady, Drawing, row_at};
ghost use Rattle.rows.specs.Filled.{PutReady, Put, LayReady, Filled};

use plan::{LINK, MOST_RECORDS, ORDINARY, WAIT};
use tables::{Part, ROOM, SIDE, begin, close, offer_of};

// A row has the record's kind, the points that it joins, from and to, its two numbers, and its second point. The sheet holds 32 bits of
// each, which is all that a record has.
// The rows are a lent room of numbers, kind and all, of the C interface: so no enum.
#[derive(Clone, Copy)]
pub struct Row {
    pub kind: u64,
    pub from: u64,
    pub to: u64,
    pub first: u64,
    pub second: u64,
    pub over: u64,
}

pub const WIDTH: usize = 6;

pub const SHEET: usize = WIDTH * MOST_RECORDS;

// The kinds of record, as a row has them.
pub const LINK_ROW: u64 = LINK as u64;

pub const ORDINARY_ROW: u64 = ORDINARY as u64;

pub const WAIT_ROW: u64 = WAIT as u64;

// Offers the edges of a row, as far as they are of the part; `p` is the duration of its link.
fn put(
    t: &mut [u32; ROOM],
    part: Part,
    kind: u64,
    from: usize,
    to: usize,
    first: u64,
    second: u64,
    p: u64,
)
    requires { PutReady kind from to first second p t.old }
    ensures { Put part kind from to first second p t.old t.new }
{
    if kind == ORDINARY_ROW {
        offer_of(&mut *t, part, from, to, first, second);
    } else if kind == WAIT_ROW {
        let down = first.min(p);
        offer_of(&mut *t, part, from, to, 0, down);
    } else if kind == LINK_ROW {
        offer_of(&mut *t, part, from, to, p, 0);
        offer_of(&mut *t, part, to, from, 0, p);
    }
}

// Row `q` of the sheet.
pub fn row_at(sheet: &[u32; SHEET], q: usize) -> Row
    requires { q < most_records }
    ensures { result ≡ row_at sheet.now q }
{
    let at = q * WIDTH;
    Row {
        kind: u64::from(sheet[at]),
        from: u64::from(sheet[at + 1]),
        to: u64::from(sheet[at + 2]),
        first: u64::from(sheet[at + 3]),
        second: u64::from(sheet[at + 4]),
        over: u64::from(sheet[at + 5]),
    }
}

// Offers the edges of row `q` of the sheet at the durations.
fn lay(
    t: &mut [u32; ROOM],
    part: Part,
    sheet: &[u32; SHEET],
    durations: &[u64; SIDE],
    n: usize,
    q: usize,
)
    requires { LayReady part sheet.now durations.now n q t.old }
    ensures { Drawing part sheet.now durations.now n (q + 1) t.new }
{
    let row = row_at(sheet, q);
    let p = durations[row.over as usize];
    put(
        &mut *t,
        part,
        row.kind,
        row.from as usize,
        row.to as usize,
        row.first,
        row.second,
        p,
    );
}

// The table of the edges of the first `m` rows that are of the part.
fn draw(
    t: &mut [u32; ROOM],
    part: Part,
    sheet: &[u32; SHEET],
    durations: &[u64; SIDE],
    n: usize,
    m: usize,
)
    requires { SheetReady sheet.now durations.now m n }
    ensures { Drawing part sheet.now durations.now n m t.new }
{
    begin(&mut *t);
    for q in 0..m {
        lay(&mut *t, part, sheet, durations, n, q);
    }
}

// The distances over the edges of the part, or `false` where they have a cycle of negative sum.
pub fn fill(
    t: &mut [u32; ROOM],
    part: Part,
    sheet: &[u32; SHEET],
    durations: &[u64; SIDE],
    n: usize,
    m: usize,
) -> bool
    requires { SheetReady sheet.now durations.now m n }
    ensures { Filled part sheet.now durations.now m n t.new result }
{
    draw(&mut *t, part, sheet, durations, n, m);
    close(&mut *t, n)
}
