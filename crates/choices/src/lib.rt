// The projections of a plan by number: what the test's answer says of their count, and the durations that one of them picks, of a plan laid
// out in rows. An inner room: `chosen` has a `requires`, which every caller is proved to meet.

#![tactic(auto)]

ghost use Rattle.std.specs.Prelude.{◌≡◌, ◌+◌, ◌≤◌};
ghost use Rattle.plan.specs.Limits.{farthest};
ghost use Rattle.choices.specs.Answered.{refused_by, many_by};
ghost use Rattle.choices.specs.Choices.{ChooseAsks, ChosenAs};

use plan::{ACCEPTED, Refusal};
use rows::{SHEET, row_at};
use tables::SIDE;
use vee::Answer;

// The reply number of a plan that does not pass the test.
pub const DOES_NOT_PASS: u32 = 60;

fn refusal(number: u32, place: u32) -> Refusal
    ensures { result ≡ record { number = number; place = place } }
{
    Refusal { number, place }
}

// What an answer of the test refuses: its own refusal, or 60 where the plan does not pass.
pub fn refused_by(answer: Answer) -> Refusal
    ensures { result ≡ refused_by answer }
{
    match answer {
        Answer::Refused(number, place) => refusal(number, place),
        Answer::Yes(_) => refusal(ACCEPTED, 0),
        Answer::Cycle(_) | Answer::Pair(_, _, _) => refusal(DOES_NOT_PASS, 0),
    }
}

// How many projections the test has tried of a plan that passes.
pub fn many_by(answer: Answer) -> u32
    ensures { result ≡ many_by answer }
{
    match answer {
        Answer::Yes(k) => k,
        _ => 0,
    }
}

// The duration of a link that is so far past its least, and not past its most.
fn lasting(least: u64, most: u64, digit: u64) -> u64
    requires { (least + digit ≤ most) × (most ≤ farthest) }
    ensures { result ≡ least + digit }
{
    most.min(least + digit)
}

// The durations of projection `number` of the `many` that the links of the `links` rows before row `past` have: the number's
// digits, the first link's first, say how far each duration is past its least.
pub fn chosen(
    sheet: &[u32; SHEET],
    past: usize,
    links: usize,
    many: u32,
    number: u32,
) -> [u64; SIDE]
    requires { ChooseAsks sheet.now past links many number }
    ensures { ChosenAs sheet.now past links number result }
{
    let mut w = [0u64; SIDE];
    let mut rest = u64::from(many);
    let mut left = u64::from(number);
    for k in (0..links).rev() {
        let row = row_at(sheet, past - (k + 1));
        rest /= row.second + 1 - row.first;
        w[row.over as usize] = lasting(row.first, row.second, left / rest);
        left %= rest;
    }
    w
}

#[cfg(test)]
mod tests {
    use crate::many_by;
    use plan::{ACCEPTED, LINK, ORDINARY, POINT, Plan, check, empty, links_of, points_of};
    use rows::{SHEET, lay_out};
    use vee::{projections, test};

    // Points 0 to 2, and links from point 0 to the two others, of so many durations each.
    fn two_links(first: i32, second: i32) -> Plan {
        let mut plan = empty(0);
        plan.count = 5;
        plan.records[0].kind = POINT;
        plan.records[1].kind = POINT;
        plan.records[1].a = 1;
        plan.records[2].kind = POINT;
        plan.records[2].a = 2;
        plan.records[3].kind = LINK;
        plan.records[3].b = 1;
        plan.records[3].first = 1;
        plan.records[3].second = first;
        plan.records[4].kind = LINK;
        plan.records[4].b = 2;
        plan.records[4].first = 1;
        plan.records[4].second = second;
        plan
    }

    // The same, and a record that no projection keeps: point 1 before point 0.
    fn failing(first: i32, second: i32) -> Plan {
        let mut plan = two_links(first, second);
        plan.count = 6;
        plan.records[5].kind = ORDINARY;
        plan.records[5].b = 1;
        plan.records[5].first = -1;
        plan
    }

    // How many projections `vee::projections` says that a plan has, if it is accepted; 4,097 where it says too many.
    fn counted(plan: Plan) -> Option<u64> {
        let found = check(plan);
        if found.number != ACCEPTED {
            return None;
        }
        let mut sheet = [0u32; SHEET];
        lay_out(plan, &mut sheet);
        let n = points_of(plan) as usize;
        let links = links_of(plan) as usize;
        let past = n + links;
        Some(projections(&sheet, past, links).min(4097))
    }

    #[test]
    fn counts_projections(rt: HostRuntime) {
        for (first, second, many) in [
            (31, 2, 62),
            (64, 64, 4096),
            (64, 65, 4097),
            (100_000, 2, 4097),
        ] {
            assert_eq!(rt;
                counted(two_links(first, second)),
                Some(many),
                "{first} and {second} durations"
            );
        }
        assert_eq!(rt; counted(two_links(1, 2)), None);
        assert_eq!(rt; counted(failing(31, 2)), Some(62));
        assert_eq!(rt; many_by(test(failing(31, 2))), 0);
    }
}
