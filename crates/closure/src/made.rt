// The plan that is made from a plan's points and a table of distances.
ghost use Rattle.std.specs.Prelude.{◌≡◌, true, ◌++◌, ◌<◌, take, if◌then◌else◌};
ghost use Rattle.std.proofs.Math.IntN.{sub_ℕ};
ghost use Rattle.plan.specs.APlan.{blank, records_of, plan_of};
ghost use Rattle.plan.specs.Haul.{an_ordinary};
ghost use Rattle.plan.specs.PlanFile.{signed_of};
ghost use Rattle.tables.specs.Tables.{bias, side};
ghost use Rattle.tables.specs.Entries.{wide, at, nowhere};
ghost use Rattle.closure.specs.Closing.{row_of, records_by};
ghost use Rattle.closure.specs.Inside.{RowReady, RowsReady, PointsReady};

use numbers::signed;
use plan::{ORDINARY, Plan, Record};
use records::{no_records, one_if};
use tables::{BIAS, NONE, ROOM, SIDE};

// The thirty-two bits of -1.
const ALL_ONES: u32 = 4294967295;

// The thirty-two bits of the bound that a distance makes.
fn bits_of(v: u32) -> u32
    requires { v < nowhere }
    ensures { signed_of result ≡ sub_ℕ (wide v) bias }
{
    if v < BIAS {
        ALL_ONES - (BIAS - 1 - v)
    } else {
        v - BIAS
    }
}

// The record of a pair that a path joins.
fn ordinary(x: usize, y: usize, v: u32) -> Record
    requires { (x < side) × (y < side) × (v < nowhere) }
    ensures { result ≡ an_ordinary x (sub_ℕ (wide v) bias) y }
{
    Record {
        kind: ORDINARY,
        a: x as u8,
        b: y as u8,
        first: signed(bits_of(v)),
        second: 0,
        code: 0,
    }
}

// A record of zeros, as unused room holds.
fn blank() -> Record
    ensures { result ≡ blank }
{
    Record {
        kind: 0,
        a: 0,
        b: 0,
        first: 0,
        second: 0,
        code: 0,
    }
}

// The record of a pair, or of zeros where it makes none.
fn record_if(so: bool, x: usize, y: usize, v: u32) -> Record
    requires { (x < side) × (y < side) × (so ≡ true → v < nowhere) }
    ensures { result ≡ (if so then an_ordinary x (sub_ℕ (wide v) bias) y else blank) }
{
    if so { ordinary(x, y, v) } else { blank() }
}

// The plan with the records from `x` added.
fn with_row(plan: Plan, t: &[u32; ROOM], n: usize, x: usize) -> Plan
    requires { RowReady plan n x }
    ensures { result ≡ plan_of (records_of plan ++ row_of n (at t.now) x) }
{
    let mut records = plan.records;
    let mut count = plan.count as usize;
    let row = x * SIDE;
    for y in 0..n {
        let v = t[row + y];
        let so = (x != y) & (v < NONE);
        records[count] = record_if(so, x, y, v);
        count += one_if(so) as usize;
    }
    Plan {
        count: count as u32,
        records,
    }
}

// The plan with the records of all pairs added, the first point slowest.
fn with_rows(plan: Plan, t: &[u32; ROOM], n: usize) -> Plan
    requires { RowsReady plan n }
    ensures { result ≡ plan_of (records_of plan ++ records_by n (at t.now)) }
{
    let mut made = plan;
    for x in 0..n {
        made = with_row(made, t, n, x);
    }
    made
}

// The plan of a plan's first `n` records.
fn first_records(plan: Plan, n: usize) -> Plan
    requires { PointsReady plan n }
    ensures { result ≡ plan_of (take n (records_of plan)) }
{
    let mut records = no_records();
    for i in 0..n {
        let r = plan.records[i];
        records[i] = r;
    }
    Plan {
        count: n as u32,
        records,
    }
}

// The plan of a plan's `n` points and the records of all pairs.
pub(crate) fn made_plan(plan: Plan, t: &[u32; ROOM], n: usize) -> Plan
    requires { PointsReady plan n }
    ensures { result ≡ plan_of (take n (records_of plan) ++ records_by n (at t.now)) }
{
    with_rows(first_records(plan, n), t, n)
}
