// A lighter plan, with a list of what went: of a plan that passes the test, the plan that is left when each ordinary record that is
// not needed is dropped, in file order. Document 02, §11. It takes any plan.

#![tactic(auto)]

ghost use Rattle.std.specs.Prelude.{◌≡◌, ◌≤◌, if◌then◌else◌};
ghost use Rattle.plan.specs.Limits.{most_records};
ghost use Rattle.plan.specs.APlan.{records_of, plan_of};
ghost use Rattle.lighter.specs.Lighter.{LighterOf};
ghost use Rattle.lighter.specs.Inside.{but, DropAsks, Dropped};

use dropping::is_spare;
use plan::{MOST_RECORDS, Plan, Refusal};
use records::{no_records, one_if};
use vee::{Answer, test};

// The lighter plan, how many records were dropped and their numbers in the plan as it came in, in order. Room past the last number is 0.
// A room with its length beside it: the project has no heap.
#[derive(Clone, Copy)]
pub struct Lighter {
    pub plan: Plan,
    pub count: u32,
    pub dropped: [u32; MOST_RECORDS],
}

// The reply number of a plan that does not pass the test.
pub const DOES_NOT_PASS: u32 = 60;

// The plan of a plan's records but that at place `at`; of all where there is none.
fn without(plan: Plan, at: usize) -> Plan
    requires { plan.count ≤ most_records }
    ensures { result ≡ plan_of (but at (records_of plan)) }
{
    let count = plan.count as usize;
    let n = count - one_if(at < count) as usize;
    let mut records = no_records();
    for i in 0..n {
        let r = plan.records[i + one_if(at <= i) as usize];
        records[i] = r;
    }
    Plan {
        count: n as u32,
        records,
    }
}

fn either(so: bool, a: Plan, b: Plan) -> Plan
    ensures { result ≡ (if so then a else b) }
{
    if so { a } else { b }
}

// The number, or 0.
fn number_if(so: bool, i: u32) -> u32
    ensures { result ≡ (if so then i else 0) }
{
    if so { i } else { 0 }
}

// Goes through the records of a plan that passes, in file order. Record `i` of the plan as it came in stands `count` places further
// to the front of what is kept.
fn drop_all(plan: Plan, many: u32) -> Lighter
    requires { DropAsks plan many }
    ensures { Dropped plan result }
{
    let total = plan.count as usize;
    let mut kept = without(plan, total);
    let mut dropped = [0u32; MOST_RECORDS];
    let mut count: usize = 0;
    for i in 0..total {
        let at = i - count;
        let r = kept.records[at];
        let rest = without(kept, at);
        let gone = is_spare(r, rest, many);
        kept = either(gone, rest, kept);
        dropped[count] = number_if(gone, i as u32);
        count += one_if(gone) as usize;
    }
    Lighter {
        plan: kept,
        count: count as u32,
        dropped,
    }
}

// The plan's own refusal, 13, 60 where it does not pass; else the lighter plan.
pub fn lighter_of(plan: Plan) -> Result<Lighter, Refusal>
    ensures { LighterOf plan result }
{
    match test(plan) {
        Answer::Refused(number, place) => Err(Refusal { number, place }),
        Answer::Yes(many) => Ok(drop_all(plan, many)),
        Answer::Cycle(_) | Answer::Pair(_, _, _) => Err(Refusal {
            number: DOES_NOT_PASS,
            place: 0,
        }),
    }
}
