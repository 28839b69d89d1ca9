// The windows of the foreman's points not yet done, from what has happened as plain values: which are open, the record that
// keeps each of the others shut, each one's Low, and H; then what is asked of them. A plan that `check` accepts and small minutes are assumed, so that every number fits.
// High and H can be below zero, and are kept 100,000 up. An inner room: it serves `board` and the crates around it.

#![tactic(auto)]

ghost use Rattle.std.specs.Prelude.{◌≡◌};
ghost use Rattle.points.specs.Sets.{members_of};
ghost use Rattle.plan.specs.APlan.{records_of};
ghost use Rattle.lowhigh.specs.Inside.{Given};
ghost use Rattle.windows.specs.Inside.{WindowsOf, Minus, least_at};

mod asks;

pub use asks::{all_above, latest_of, point_number, record_beside, refusal};
use history::{ROOM, first_points};
use links::Links;
use lowhigh::{NEVER, tables_of};
use plan::Plan;
use points::members;

// The reply numbers 21 to 23 and 28 to 30.
pub const ALL_DONE: u32 = 21;

pub const IS_STUCK: u32 = 22;

pub const NOT_FORMED: u32 = 23;

pub const NOT_OPEN: u32 = 28;

pub const TOO_EARLY: u32 = 29;

pub const TOO_LATE: u32 = 30;

// The foreman's points that may come, the number of the first record that keeps each point shut and 0 for none, each point's
// Low, and H, 100,000 up.
#[derive(Clone, Copy)]
pub struct Windows {
    pub opens: u32,
    pub holders: [u32; ROOM],
    pub lows: [u32; ROOM],
    pub high: u32,
}

// The points of s that are not in t.
fn minus(s: u32, t: u32) -> u32
    ensures { Minus s t result }
{
    (s | t) ^ t
}

// The least High of some points, 100,000 up.
fn least_high(set: u32, highs: [u32; ROOM]) -> u32
    ensures { result ≡ least_at highs (members_of set) }
{
    let mut least = NEVER;
    for p in members(set) {
        least = least.min(highs[p as usize]);
    }
    least
}

// The windows.
pub fn windows_of(plan: Plan, links: Links, clock: u32, done: u32, minutes: [u32; ROOM]) -> Windows
    requires { Given plan links minutes }
    ensures { WindowsOf (records_of plan) clock done minutes result }
{
    let tables = tables_of(plan, links, clock, done, minutes);
    let holders = tables.holders;
    let lows = tables.lows;
    let highs = tables.highs;
    let foremans = minus(first_points(links.points), links.watched);
    let opens = minus(minus(foremans, done), tables.shut);
    let high = least_high(opens, highs);
    Windows {
        opens,
        holders,
        lows,
        high,
    }
}
