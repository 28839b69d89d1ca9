// Tables of 32 by 32 distances, each a number of 32 bits with a bias, and how one is closed: a pass for each point, in place, four
// entries at a time. The sums stay in range, since a point that is below zero from itself to itself ends the passes. A table is lent by
// the test, which keeps two.
ghost use Rattle.std.specs.Prelude.{◌≡◌, ℕ, ◌≤◌, ◌<◌, MatchBool, length, replicate};
ghost use Rattle.tables.specs.Tables.{side, room};
ghost use Rattle.tables.specs.Entries.{Lesser, Lifted, RowBy, RowReady, RowDone, StepReady, StepDone, PassReady, PassDone, CloseReady, CloseDone, raw, middle, small, nowhere};
ghost use Rattle.tables.specs.Steps.{OfferReady, Offered, takes_of, OfferedOf, Begun};

use plan::MOST_POINTS;

// A table has a row for each point, with a place for each point.
pub const SIDE: usize = MOST_POINTS as usize;

pub const ROOM: usize = SIDE * SIDE;

// The distance v is stored as `BIAS` + v; `NONE` says that no walk joins the two points.
pub const BIAS: u32 = 536870912;

pub const NONE: u32 = 1073741824;

// What stands for `NONE` in a row that is added to.
pub const FAR: u32 = 1207959552;

// `BIAS` as a wider number, to which an edge is added.
const MIDDLE: u64 = BIAS as u64;

// Which edges a table is of.
#[derive(Clone, Copy)]
pub enum Part {
    All,
    Falling,
    Rising,
}

// The lesser of two numbers below 2^31, compared as signed ones: the processor does that four at a time.
pub fn lesser(a: u32, b: u32) -> u32
    requires { (a < small) × (b < small) }
    ensures { Lesser a b result }
{
    if (a as i32) < (b as i32) { a } else { b }
}

fn lifted(v: u32) -> u32
    ensures { Lifted v result }
{
    if v < NONE { v } else { FAR }
}

// Row `k`, each number of which becomes what `f` makes of it. It is an array of its own, so that the compiler knows that no store to the
// table changes it.
pub fn row_by<F: Fn(u32) -> u32>(t: &[u32; ROOM], n: usize, k: usize, f: F) -> [u32; SIDE]
    requires room { (length t.now ≡ room) × (n ≤ side) × (k < n) }
    requires each { (j : ℕ) → j < n → F.pre f (raw t.now k j) }
    ensures { RowBy (F.post f) n k t.now result }
{
    let at = k * SIDE;
    let mut l = [FAR; SIDE];
    for j in 0..n {
        l[j] = f(t[at + j]);
    }
    l
}

// Row `i` of a pass: each entry becomes the better of itself and of the way by `b` and then the entry of `l`.
fn row(t: &mut [u32; ROOM], l: &[u32; SIDE], i: usize, b: u32)
    requires { RowReady i b l.now t.old }
    ensures { RowDone i b l.now t.old t.new }
{
    let here = i * SIDE;
    for j in 0..SIDE {
        t[here + j] = lesser(l[j] + b - BIAS, t[here + j]);
    }
}

// The same by row `i`'s own entry at `k`, where there is one.
fn step(t: &mut [u32; ROOM], l: &[u32; SIDE], i: usize, k: usize)
    requires { StepReady i k l.now t.old }
    ensures { StepDone i k l.now t.old t.new }
{
    let b = t[i * SIDE + k];
    if b < NONE {
        row(&mut *t, l, i, b);
    }
}

// The pass at `k`.
fn pass(t: &mut [u32; ROOM], n: usize, k: usize)
    requires { PassReady n k t.old }
    ensures { PassDone n k t.old t.new }
{
    let l = row_by(&*t, n, k, lifted);
    for i in 0..n {
        step(&mut *t, &l, i, k);
    }
}

// Whether no point is below zero from itself to itself.
fn is_level(t: &[u32; ROOM], n: usize) -> bool
    requires { (length t.now ≡ room) × (n ≤ side) }
    ensures { MatchBool result ((x : ℕ) → x < n → middle ≤ raw t.now x x) ((x : ℕ) × (x < n) × (raw t.now x x < middle)) }
{
    (0..n).all(|i| BIAS <= t[i * SIDE + i])
}

// Closes the table of `n` points, or answers `false` where some point is below zero from itself to itself. As long as none
// of the points passed is, no number is further from zero than 34 edges are, so the sums of the next pass stay in range.
pub fn close(t: &mut [u32; ROOM], n: usize) -> bool
    requires { CloseReady n t.old }
    ensures { CloseDone n t.old t.new result }
{
    for k in 0..n {
        if t[k * SIDE + k] < BIAS {
            return false;
        }
        pass(&mut *t, n, k);
    }
    is_level(&*t, n)
}

// An edge from `i` to `j` of weight `up` less `down` is offered to the table.
fn offer(t: &mut [u32; ROOM], i: usize, j: usize, up: u64, down: u64)
    requires { OfferReady i j up down t.old }
    ensures { Offered i j up down t.old t.new }
{
    let v = (MIDDLE + up - down) as u32;
    let p = i * SIDE + j;
    if v < t[p] {
        t[p] = v;
    }
}

// Whether an edge of weight `up` less `down` is of the part.
fn takes(part: Part, up: u64, down: u64) -> bool
    ensures { result ≡ takes_of part up down }
{
    match part {
        Part::All => true,
        Part::Falling => up < down,
        Part::Rising => down <= up,
    }
}

// The same offer, made only if the edge is of the part.
pub fn offer_of(t: &mut [u32; ROOM], part: Part, i: usize, j: usize, up: u64, down: u64)
    requires { OfferReady i j up down t.old }
    ensures { OfferedOf (takes_of part up down) i j up down t.old t.new }
{
    if takes(part, up, down) {
        offer(&mut *t, i, j, up, down);
    }
}

// No walk joins any two points.
fn clear(t: &mut [u32; ROOM])
    ensures { t.new ≡ replicate room nowhere }
{
    *t = [NONE; ROOM];
}

// A table without edges: each point is at no distance from itself.
pub fn begin(t: &mut [u32; ROOM])
    ensures { Begun t.new }
{
    clear(&mut *t);
    for i in 0..SIDE {
        t[i * SIDE + i] = BIAS;
    }
}
