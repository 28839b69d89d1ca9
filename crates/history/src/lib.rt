// What has happened, as plain values: a clock, a set of done points and a minute for each. When they are sound, and what is
// asked of every record of a plan by them; specs/ has the rules. An inner room: it serves `board` and the crates between.
// Takes any plan and any values, so sums of minutes and bounds are of 64 bits.

#![tactic(auto)]

ghost use Rattle.std.specs.Prelude.{◌≡◌};
ghost use Rattle.points.specs.Sets.{below_of};
ghost use Rattle.plan.specs.APlan.{points, records_of};
ghost use Rattle.history.specs.History.{minute_in};

mod each;
mod sound;

pub use each::{all_earlier, all_in_bounds};
use plan::{Plan, points_of};
use points::{MOST, below};
pub use sound::{all_fit, last_done};

// A place for each point.
pub const ROOM: usize = plan::MOST_POINTS as usize;

// The minute of a point; a point past the last place has 0.
pub fn minute_at(minutes: [u32; ROOM], p: u8) -> u32
    ensures { result ≡ minute_in minutes p }
{
    if p < MOST {
        let at = p as usize;
        minutes[at]
    } else {
        0
    }
}

// The set of the first n points, of which there are 32 at most.
pub fn first_points(n: u32) -> u32
    ensures { result ≡ below_of n }
{
    below(n.min(u32::from(MOST)) as u8)
}

// The set of a plan's points.
pub fn all_points(plan: Plan) -> u32
    ensures { result ≡ below_of (points (records_of plan)) }
{
    first_points(points_of(plan))
}
