// Plans without watched steps: of a plan with no links and no waits, the plan that has an ordinary record for each pair of
// different points that a path joins, with the shortest distance as bound. Document 02, §12. It takes any plan.

#![tactic(auto)]

ghost use Rattle.std.specs.Prelude.{◌≡◌, ◌≤◌};
ghost use Rattle.plan.specs.Limits.{most_records};
ghost use Rattle.plan.specs.APlan.{records_of};
ghost use Rattle.closure.specs.Closing.{has_steps, close_of};

use far::some_far;
use made::made_plan;
use plan::{ACCEPTED, LINK, Plan, Refusal, WAIT, check, points_of, refuse};
use rows::{SHEET, fill, lay_out};
use tables::{NONE, Part, ROOM, SIDE};

mod far;
mod made;

// The reply numbers of a plan of which none is made.
pub const HAS_STEPS: u32 = 61;

pub const BELOW_ZERO: u32 = 62;

pub const TOO_FAR: u32 = 63;

// Whether a link or wait is present.
fn has_steps(plan: Plan) -> bool
    requires { plan.count ≤ most_records }
    ensures { result ≡ has_steps (records_of plan) }
{
    let count = plan.count as usize;
    let mut found = false;
    for i in 0..count {
        let r = plan.records[i];
        found = (r.kind == LINK) | (r.kind == WAIT) | found;
    }
    found
}

// Makes the plan: its own refusal, then 61, 62 and 63; else the plan that is made.
pub fn close(plan: Plan) -> Result<Plan, Refusal>
    ensures { result ≡ close_of plan }
{
    let found = check(plan);
    if found.number != ACCEPTED {
        return Err(found);
    }
    if has_steps(plan) {
        return refuse(HAS_STEPS, 0);
    }
    let mut sheet = [0u32; SHEET];
    lay_out(plan, &mut sheet);
    let n = points_of(plan) as usize;
    let durations = [0u64; SIDE];
    let mut t = [NONE; ROOM];
    if !fill(
        &mut t,
        Part::All,
        &sheet,
        &durations,
        n,
        plan.count as usize,
    ) {
        return refuse(BELOW_ZERO, 0);
    }
    if some_far(&t, n) {
        return refuse(TOO_FAR, 0);
    }
    let made = made_plan(plan, &t, n);
    Ok(made)
}
