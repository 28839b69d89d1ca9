// The lines of an event and of the points in a reply's list, from the rooms of the engine that keeps counts: a plan by value is large,
// and none is passed on for an event or a line. The ponds are taken out of the plan once; the records that keep points shut are read
// from their rows. An inner room of the printing program: `line_at` has a `requires`.

#![tactic(auto)]

ghost use Rattle.std.specs.Prelude.{◌≡◌, ◌<◌, min};
ghost use Rattle.plan.specs.Limits.{most_points};
ghost use Rattle.places.specs.Places.{has_list, named_by, line_at, kept_line};

mod reason;

pub use codes::{ROOM, ponds_of};
use engine::KEPT;
use kept::{CLOCK, DONE};
use plan::MOST_POINTS;
use reason::reason_at;
use replies::{Outcome, Reply, State};
use rows::SHEET;
use text::Line;

// `EVENT NUMBER CLOCK COUNT`: an event, its reply number, and the clock and the count of done points that are kept after it.
pub fn kept_line(kept: &[u32; KEPT], event: u64, number: u32) -> Line
    ensures { result ≡ kept_line kept.now event number }
{
    let count = points::count(kept[DONE]);
    text::numbers_line(event, number, kept[CLOCK], count)
}

// Whether there is a list to print.
pub fn has_list(outcome: Outcome) -> bool
    ensures { result ≡ has_list outcome }
{
    match outcome {
        Outcome::Refused(_, _) | Outcome::Finished => false,
        Outcome::Stuck | Outcome::Waiting | Outcome::Offers => true,
    }
}

// The number of the record that keeps a point shut, 0 for none.
fn named(state: State) -> u32
    ensures { result ≡ named_by state }
{
    match state {
        State::Shut(n) => n,
        _ => 0,
    }
}

// One point in the list of a reply.
pub fn line_at(rows: &[u32; SHEET], ponds: [u32; ROOM], reply: Reply, i: u32) -> Line
    requires { i < most_points }
    ensures { result ≡ line_at rows.now ponds reply i }
{
    let at = i as usize;
    let place = reply.places[at];
    let state = place.state;
    let reason = reason_at(rows, named(state));
    text::point_line(i, ponds[at], place, reason)
}

// How many points there are, as far as a reply has places.
pub fn listed(points: u32) -> u32
    ensures { result ≡ min points most_points }
{
    points.min(MOST_POINTS)
}
