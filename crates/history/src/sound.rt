// What soundness asks of the points: each one's minute fits the clock and the done set, and the clock is the largest done
// minute.
ghost use Rattle.std.specs.Prelude.{◌≡◌};
ghost use Rattle.points.specs.Sets.{members_of, from, every};
ghost use Rattle.plan.specs.Limits.{most_points};
ghost use Rattle.history.specs.History.{fits, largest};

use crate::{ROOM, minute_at};
use points::{MOST, has, members};

// A point not done holds 0, and no minute is past the clock.
fn fits_at(clock: u32, done: u32, minutes: [u32; ROOM], p: u8) -> bool
    ensures { result ≡ fits clock done minutes p }
{
    let m = minute_at(minutes, p);
    (has(done, p) | (m == 0)) & (m <= clock)
}

pub fn all_fit(clock: u32, done: u32, minutes: [u32; ROOM]) -> bool
    ensures { result ≡ every (fits clock done minutes) (from 0 most_points) }
{
    for p in 0..MOST {
        if !fits_at(clock, done, minutes, p) {
            return false;
        }
    }
    true
}

// The largest minute of the done points, 0 for none.
pub fn last_done(done: u32, minutes: [u32; ROOM]) -> u32
    ensures { result ≡ largest minutes (members_of done) }
{
    let mut last: u32 = 0;
    for p in members(done) {
        last = last.max(minute_at(minutes, p));
    }
    last
}
