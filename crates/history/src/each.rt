// The two questions that are asked of every record of a plan, from the minutes of the record's own two points. The minutes are lent:
// an array by value would be copied at every call.
ghost use Rattle.std.specs.Prelude.{◌≡◌, length};
ghost use Rattle.plan.specs.Limits.{most_points};
ghost use Rattle.plan.specs.APlan.{records_of};
ghost use Rattle.history.specs.History.{minute_in, in_bounds, earlier, each};

use crate::ROOM;
use plan::{LINK, Plan, Record, split, used};
use points::{MOST, has};

// The minute of a point, from minutes that are lent.
fn minute_in(minutes: &[u32], p: u8) -> u32
    requires { length minutes.now ≡ most_points }
    ensures { result ≡ minute_in minutes.now p }
{
    if p < MOST {
        let at = p as usize;
        minutes[at]
    } else {
        0
    }
}

// Where a link's C is done, A is done and the duration is in bounds; a running link has A + y ≥ clock.
fn in_bounds(clock: u32, done: u32, minutes: &[u32], r: Record) -> bool
    requires { length minutes.now ≡ most_points }
    ensures { result ≡ in_bounds clock done minutes.now r }
{
    if r.kind != LINK {
        return true;
    }
    let a = u64::from(minute_in(minutes, r.a));
    let to = u64::from(minute_in(minutes, r.b));
    let started = has(done, r.a);
    let ended = has(done, r.b);
    let least = a + u64::from(split(r.first).up);
    let most = a + u64::from(split(r.second).up);
    (!ended | (started & ((least <= to) & (to <= most))))
        & (!(started & !ended) | (u64::from(clock) <= most))
}

// Where a link's A and C are both done, A is in an earlier event than C.
fn earlier(done: u32, calls: &[u32], r: Record) -> bool
    requires { length calls.now ≡ most_points }
    ensures { result ≡ earlier done calls.now r }
{
    if r.kind != LINK {
        return true;
    }
    let a = minute_in(calls, r.a);
    let c = minute_in(calls, r.b);
    !(has(done, r.a) & has(done, r.b)) | (a < c)
}

// Every done link is in its bounds, and no running one has run out.
pub fn all_in_bounds(plan: Plan, clock: u32, done: u32, minutes: [u32; ROOM]) -> bool
    ensures { result ≡ each (in_bounds clock done minutes) (records_of plan) }
{
    let n = used(plan.count);
    for i in 0..n {
        let r = plan.records[i];
        if !in_bounds(clock, done, &minutes, r) {
            return false;
        }
    }
    true
}

// Every done link's start is in an earlier event than its end.
pub fn all_earlier(plan: Plan, done: u32, calls: [u32; ROOM]) -> bool
    ensures { result ≡ each (earlier done calls) (records_of plan) }
{
    let n = used(plan.count);
    for i in 0..n {
        let r = plan.records[i];
        if !earlier(done, &calls, r) {
            return false;
        }
    }
    true
}
