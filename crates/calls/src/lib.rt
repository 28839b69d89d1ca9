// Which call came when, document 02, §7, on plain values: whether the numbers of the events that did the points are sound.
// One pass over the done points keeps a slot for each number, and one over the slots ends it. An inner room: it serves
// `board`. Takes any values.

#![tactic(auto)]

ghost use Rattle.std.specs.Prelude.{◌≡◌, true, ◌≤◌};
ghost use Rattle.points.specs.Sets.{member, from, every};
ghost use Rattle.plan.specs.Limits.{most_points};
ghost use Rattle.calls.specs.Calls.{unnumbered, numbered};
ghost use Rattle.calls.specs.Inside.{slot_of, slot_by, agrees_with, rising, in_order};

use history::{ROOM, first_points};
use points::{MOST, count, has, members, with};

// There are no more events than points.
const MOST_CALLS: u32 = MOST as u32;

// A point not done holds 0.
fn all_unnumbered(done: u32, calls: [u32; ROOM]) -> bool
    ensures { result ≡ every (unnumbered done calls) (from 0 most_points) }
{
    for p in 0..MOST {
        let at = p as usize;
        if !(has(done, p) | (calls[at] == 0)) {
            return false;
        }
    }
    true
}

// The slot of a number: 1 has the first. A number that no point may have has some slot too.
fn slot_of(n: u32) -> u8
    ensures { result ≡ slot_of n }
{
    if n == 0 {
        0
    } else {
        ((n - 1) % MOST_CALLS) as u8
    }
}

// The slot for a foreman's point, and none for a watched one.
fn slot_by(watches: bool, s: u8) -> u8
    ensures { result ≡ slot_by watches s }
{
    if watches { MOST } else { s }
}

// A done point of the number n and the minute m agrees with what was noted before it.
fn agrees(n: u32, m: u32, s: u8, by: u8, seen: u32, noted: u32, foremans: u32) -> bool
    ensures { result ≡ agrees_with n m s by seen noted foremans }
{
    ((0 < n) & (n <= MOST_CALLS)) & ((!has(seen, s) | (noted == m)) & !has(foremans, by))
}

// The minutes noted at the first k slots never fall.
fn is_rising(noted: [u32; ROOM], k: u32) -> bool
    requires { k ≤ most_points }
    ensures { result ≡ rising noted k }
{
    let last = (k as usize).saturating_sub(1);
    for i in 0..last {
        let next = i + 1;
        if noted[next] < noted[i] {
            return false;
        }
    }
    true
}

// The slots that were seen are the first ones, and the minutes noted there never fall.
fn in_order(seen: u32, noted: [u32; ROOM]) -> bool
    ensures { result ≡ in_order seen noted }
{
    let k = count(seen);
    (seen == first_points(k)) & is_rising(noted, k)
}

// The pass over the done points, where no other has a number.
fn done_numbered(done: u32, minutes: [u32; ROOM], calls: [u32; ROOM], watched: u32) -> bool
    requires { every (unnumbered done calls) (from 0 most_points) ≡ true }
    ensures { result ≡ numbered (member watched) done minutes calls }
{
    let mut seen: u32 = 0;
    let mut foremans: u32 = 0;
    let mut noted: [u32; ROOM] = [0; ROOM];
    for p in members(done) {
        let at = p as usize;
        let n = calls[at];
        let m = minutes[at];
        let s = slot_of(n);
        let place = s as usize;
        let by = slot_by(has(watched, p), s);
        if !agrees(n, m, s, by, seen, noted[place], foremans) {
            return false;
        }
        seen = with(seen, s);
        foremans = with(foremans, by);
        noted[place] = m;
    }
    in_order(seen, noted)
}

// The numbers are sound, where `watched` is the set of watched points.
pub fn is_numbered(done: u32, minutes: [u32; ROOM], calls: [u32; ROOM], watched: u32) -> bool
    ensures { result ≡ numbered (member watched) done minutes calls }
{
    if !all_unnumbered(done, calls) {
        return false;
    }
    done_numbered(done, minutes, calls, watched)
}
