// The plan test of document 01: every projection of a plan in order, each with a cycle of negative sum or the first pair of
// points that no shortest walk of negative edges and then non-negative ones joins. It takes any plan. `projections` is an inner function,
// for a crate that has the rows of the links: it asks that each has its durations in order.

#![tactic(auto)]

ghost use Rattle.vee.specs.PlanTest.{Tested, answer_number, test_number};
ghost use Rattle.std.specs.Prelude.{◌≡◌};

use plan::{ACCEPTED, Plan, check, links_of, points_of};
use rows::{SHEET, lay_out};
use walk::{MOST_PROJECTIONS, walk_all};

mod walk;

pub use walk::projections;

// What the test answers: the plan is refused, by number and place; it passes, with the number of projections tried; or
// the number of the first projection that fails, with a cycle or its first bad pair.
// Four outcomes, each with its own values: so no Result.
#[derive(Clone, Copy)]
pub enum Answer {
    Refused(u32, u32),
    Yes(u32),
    Cycle(u32),
    Pair(u32, u32, u32),
}

// The reply number of a plan with more projections than are tested.
pub const TOO_MANY_PROJECTIONS: u32 = 13;

// Tests a plan: its own refusal, then 13, then its projections in order up to the first that fails.
pub fn test(plan: Plan) -> Answer
    ensures answer { Tested plan result }
    ensures number { answer_number result ≡ test_number plan }
{
    let found = check(plan);
    if found.number != ACCEPTED {
        return Answer::Refused(found.number, found.place);
    }
    let mut sheet = [0u32; SHEET];
    lay_out(plan, &mut sheet);
    let n = points_of(plan) as usize;
    let links = links_of(plan) as usize;
    let past = n + links;
    if MOST_PROJECTIONS < projections(&sheet, past, links) {
        return Answer::Refused(TOO_MANY_PROJECTIONS, 0);
    }
    walk_all(links, &sheet, plan.count as usize, n, past)
}
