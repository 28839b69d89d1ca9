// An event's minute and its set of watched points: what the numbers 25 and 26 ask, from a plan's links and from what has
// happened as plain values.
ghost use Rattle.std.specs.Prelude.{◌≡◌};
ghost use Rattle.points.specs.Sets.{members_of, every};
ghost use Rattle.links.specs.Inside.{runs_at, timely, timely_at};

use crate::{End, Links};
use history::{ROOM, minute_at};
use points::{has, members};

// 25: the set's points end running links.
pub fn all_running(done: u32, links: Links, set: u32) -> bool
    ensures { result ≡ every (runs_at done links) (members_of set) }
{
    for p in members(set) {
        let end = links.ends[p as usize];
        if !(has(links.watched, p) & (has(done, end.from) & !has(done, p))) {
            return false;
        }
    }
    true
}

// A link from a point at the minute `from` may end at the minute t.
fn is_timely(from: u32, end: End, t: u32) -> bool
    ensures { result ≡ timely from end t }
{
    (u64::from(from) + u64::from(end.shortest) <= u64::from(t))
        & (u64::from(t) <= u64::from(from) + u64::from(end.longest))
}

// 26: each point of the set comes within its link's x to y.
pub fn all_in_time(minutes: [u32; ROOM], links: Links, t: u32, set: u32) -> bool
    ensures { result ≡ every (timely_at minutes links t) (members_of set) }
{
    for p in members(set) {
        let end = links.ends[p as usize];
        if !is_timely(minute_at(minutes, end.from), end, t) {
            return false;
        }
    }
    true
}
