// The pond codes of a plan's points, taken out of the plan once: a plan by value is large, and what prints or writes the codes of points
// needs no more of it. Takes any plan.

#![tactic(auto)]

ghost use Rattle.std.specs.Prelude.{◌≡◌};
ghost use Rattle.plan.specs.Limits.{most_points};
ghost use Rattle.codes.specs.Ponds.{ForEach, pond_at};

use plan::{MOST_POINTS, Plan};

// A place for each point.
pub const ROOM: usize = MOST_POINTS as usize;

// The pond code of each of a plan's first records, which are its points.
pub fn ponds_of(plan: Plan) -> [u32; ROOM]
    ensures { ForEach (pond_at plan) 0 most_points result }
{
    let mut ponds = [0u32; ROOM];
    for i in 0..ROOM {
        ponds[i] = plan.records[i].code;
    }
    ponds
}
