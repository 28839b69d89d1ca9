// Why the plan test says no: the durations of the projection that fails, and the steps of a cycle of negative sum, or of a shortest way
// between the two points with its length and the best length that the windows can follow. It takes any plan.

#![tactic(auto)]

ghost use Rattle.std.specs.Prelude.{◌≡◌};
ghost use Rattle.vee.specs.declared.Answer.TheVariants as answer;
ghost use Rattle.vee.specs.PlanTest.{Tested};
ghost use Rattle.explained.specs.Explained.{nothing_more, Explained};

use drives::{durations_of, no_drives};
use plan::{Plan, links_of, points_of};
use reasons::{pair_in, round_in};
use rows::{SHEET, lay_out};
use vee::{Answer, test};
use ways::no_way;

mod drives;
mod reasons;

pub use drives::{Drive, Drives, LINKS};
pub use reasons::Why;

// What the test answers, and why. Where that is not no, all but the answer is zero.
#[derive(Clone, Copy)]
pub struct Explanation {
    pub answer: Answer,
    pub why: Why,
}

// Nothing is to be explained.
fn plainly(answer: Answer) -> Explanation
    ensures { result ≡ nothing_more answer }
{
    let drives = no_drives();
    let way = no_way();
    let why = Why {
        drives,
        shortest: None,
        allowed: None,
        way,
        sum: None,
    };
    Explanation { answer, why }
}

// A cycle in projection `i`.
fn of_cycle(plan: Plan, i: u32) -> Explanation
    requires { Tested plan (answer.Cycle i) }
    ensures { Explained plan result }
{
    let mut sheet = [0u32; SHEET];
    lay_out(plan, &mut sheet);
    let n = points_of(plan) as usize;
    let links = links_of(plan) as usize;
    let w = durations_of(&sheet, n + links, links, i);
    let why = round_in(&sheet, &w, plan.count as usize, n);
    Explanation {
        answer: Answer::Cycle(i),
        why,
    }
}

// The pair (x, y) in projection `i`.
fn of_pair(plan: Plan, i: u32, x: u32, y: u32) -> Explanation
    requires { Tested plan (answer.Pair i x y) }
    ensures { Explained plan result }
{
    let mut sheet = [0u32; SHEET];
    lay_out(plan, &mut sheet);
    let n = points_of(plan) as usize;
    let links = links_of(plan) as usize;
    let w = durations_of(&sheet, n + links, links, i);
    let why = pair_in(&sheet, &w, plan.count as usize, n, x as usize, y as usize);
    Explanation {
        answer: Answer::Pair(i, x, y),
        why,
    }
}

// What the test says of a plan, and why it says no.
pub fn explain_of(plan: Plan) -> Explanation
    ensures { Explained plan result }
{
    match test(plan) {
        Answer::Cycle(i) => of_cycle(plan, i),
        Answer::Pair(i, x, y) => of_pair(plan, i, x, y),
        plain => plainly(plain),
    }
}
