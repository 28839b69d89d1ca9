// What is asked of a plan's links from their table alone: whether one is running, whether what has happened is sound by them,
// and the numbers 24 to 27 for an event's minute and its set. Takes any table and any values. Of an accepted plan's table each
// answer is the one from the plan's records (`proofs/ByRecords`). An inner room: it serves `board`, which goes over no records
// for the few links, and an engine that does not carry the plan along.

#![tactic(auto)]

ghost use Rattle.std.specs.Prelude.{◌≡◌};
ghost use Rattle.points.specs.Sets.{members_of, every};
ghost use Rattle.running.specs.ByTable.{runs_to, any_runs, sound_to, sound_at, not_late_to, not_late_at, set_number_of};

use history::{ROOM, minute_at};
use links::{
    BEFORE_CLOCK, End, Links, NOT_IN_TIME, NOT_RUNNING, RUN_OUT, all_in_time, all_running,
};
use points::{has, members};

// A link to a point is running: A done, C not.
fn is_running(done: u32, end: End, p: u8) -> bool
    ensures { result ≡ runs_to done end p }
{
    has(done, end.from) & !has(done, p)
}

// Some link is running.
pub fn any_running(links: Links, done: u32) -> bool
    ensures { result ≡ any_runs links done }
{
    for p in members(links.watched) {
        let end = links.ends[p as usize];
        if is_running(done, end, p) {
            return true;
        }
    }
    false
}

// A link to a point is sound: where C is done, A is done, in an earlier event, and the duration is in bounds; a running one
// has A + y ≥ clock. A is at the minute a by the event of number i, C at c by that of number j.
fn is_sound_to(clock: u32, done: u32, end: End, a: u32, c: u32, i: u32, j: u32, p: u8) -> bool
    ensures { result ≡ sound_to clock done end a c i j p }
{
    let started = has(done, end.from);
    let ended = has(done, p);
    let least = u64::from(a) + u64::from(end.shortest);
    let most = u64::from(a) + u64::from(end.longest);
    let to = u64::from(c);
    ((!ended | (started & ((least <= to) & (to <= most))))
        & (!(started & !ended) | (u64::from(clock) <= most)))
        & (!(started & ended) | (i < j))
}

// All links are sound.
pub fn all_sound(
    links: Links,
    clock: u32,
    done: u32,
    minutes: [u32; ROOM],
    calls: [u32; ROOM],
) -> bool
    ensures { result ≡ every (sound_at links clock done minutes calls) (members_of links.watched) }
{
    for p in members(links.watched) {
        let end = links.ends[p as usize];
        let a = minute_at(minutes, end.from);
        let c = minute_at(minutes, p);
        let i = minute_at(calls, end.from);
        let j = minute_at(calls, p);
        if !is_sound_to(clock, done, end, a, c, i, j, p) {
            return false;
        }
    }
    true
}

// 27 is not given for the link to a point, whose A is at the minute a.
fn not_late(done: u32, end: End, a: u32, t: u32, set: u32, p: u8) -> bool
    ensures { result ≡ not_late_to done end a t set p }
{
    !is_running(done, end, p)
        | (has(set, p) | (u64::from(t) <= u64::from(a) + u64::from(end.longest)))
}

// 27 is not given.
fn none_late(links: Links, done: u32, minutes: [u32; ROOM], t: u32, set: u32) -> bool
    ensures { result ≡ every (not_late_at links done minutes t set) (members_of links.watched) }
{
    for p in members(links.watched) {
        let end = links.ends[p as usize];
        if !not_late(done, end, minute_at(minutes, end.from), t, set, p) {
            return false;
        }
    }
    true
}

// 24 to 27 in order for a set of points at the minute t, or else `next`.
pub fn set_number_of(
    links: Links,
    clock: u32,
    done: u32,
    minutes: [u32; ROOM],
    t: u32,
    set: u32,
    next: u32,
) -> u32
    ensures { result ≡ set_number_of links clock done minutes t set next }
{
    if t < clock {
        return BEFORE_CLOCK;
    }
    if !all_running(done, links, set) {
        return NOT_RUNNING;
    }
    if !all_in_time(minutes, links, t, set) {
        return NOT_IN_TIME;
    }
    if !none_late(links, done, minutes, t, set) {
        return RUN_OUT;
    }
    next
}
