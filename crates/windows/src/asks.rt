// What is asked of windows: whether every open Low is above H, the latest, and an event's numbers 28 to 30 with the record
// beside 28.
ghost use Rattle.std.specs.Prelude.{◌≡◌, ◌+◌, ◌≤◌, ltb, get_or};
ghost use Rattle.points.specs.Sets.{members_of, every};
ghost use Rattle.plan.specs.Limits.{farthest};
ghost use Rattle.lowhigh.specs.Inside.{last_minute};
ghost use Rattle.windows.specs.Inside.{latest_from, point_from, foreman_in, beside_from, refused};

use crate::{NOT_OPEN, TOO_EARLY, TOO_LATE, Windows};
use events::{Event, NO_POINT};
use history::minute_at;
use links::Links;
use lowhigh::{FARTHEST, either};
use plan::{ACCEPTED, Refusal};
use points::{has, members};

// A Low is above H, which is 100,000 up.
fn is_above(high: u32, low: u32) -> bool
    ensures { result ≡ ltb high (low + farthest) }
{
    if high < FARTHEST {
        true
    } else {
        high - FARTHEST < low
    }
}

// Every open Low is above H.
pub fn all_above(w: Windows) -> bool
    ensures { result ≡ every (λ q. ltb w.high (get_or w.lows q 0 + farthest)) (members_of w.opens) }
{
    let lows = w.lows;
    let high = w.high;
    for p in members(w.opens) {
        if !is_above(high, lows[p as usize]) {
            return false;
        }
    }
    true
}

// The latest: the lesser of H, which is 100,000 up, and clock + 100,000.
pub fn latest_of(clock: u32, high: u32) -> u32
    requires { clock ≤ last_minute }
    ensures { result ≡ latest_from clock high }
{
    high.min(clock + FARTHEST + FARTHEST)
        .saturating_sub(FARTHEST)
}

// 28 to 30 in order, or else 0.
pub fn point_number(w: Windows, latest: u32, e: Event) -> u32
    ensures { result ≡ point_from w latest e.minute e.point }
{
    let no_point = e.point == NO_POINT;
    if !(no_point | has(w.opens, e.point)) {
        return NOT_OPEN;
    }
    let lows = w.lows;
    if !(no_point | (minute_at(lows, e.point) <= e.minute)) {
        return TOO_EARLY;
    }
    if (w.opens != 0) & (latest < e.minute) {
        return TOO_LATE;
    }
    ACCEPTED
}

// A foreman's point not yet done.
fn is_foremans(links: Links, done: u32, p: u8) -> bool
    ensures { result ≡ foreman_in links done p }
{
    (u32::from(p) < links.points) & (!has(links.watched, p) & !has(done, p))
}

// The record beside the number n of an event for the point p: beside 28 the one that keeps p shut, where p is a foreman's point
// not yet done; else none.
pub fn record_beside(links: Links, done: u32, w: Windows, p: u8, n: u32) -> u32
    ensures { result ≡ beside_from links done w p n }
{
    let holders = w.holders;
    let names = (n == NOT_OPEN) & is_foremans(links, done, p);
    either(names, minute_at(holders, p), 0)
}

// A number and the record beside it.
pub fn refusal(number: u32, place: u32) -> Refusal
    ensures { result ≡ refused number place }
{
    Refusal::new(number, place)
}
