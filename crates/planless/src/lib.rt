// What is answered without the plan, from its links and from windows that are given: whether a board of such windows is
// stuck, and an event's numbers 21 to 30 with the record beside 28. Takes any links, any windows and any values. Where they are
// an accepted plan's, each answer is the one from the plan's records (`proofs/ByPlan`). An inner room: it serves an engine that
// keeps the windows and does not carry the plan along.

#![tactic(auto)]

ghost use Rattle.std.specs.Prelude.{◌≡◌};
ghost use Rattle.windows.specs.Inside.{latest_from};
ghost use Rattle.planless.specs.ByWindows.{stuck_by, later_by, number_by, with_record};

use events::{event_in, is_formed};
use history::{ROOM, first_points};
use links::Links;
use lowhigh::{FARTHEST, NEVER};
use plan::Refusal;
use running::{any_running, set_number_of};
use windows::{ALL_DONE, IS_STUCK, NOT_FORMED, Windows, all_above, point_number, record_beside};

// Nothing is open and no link is running, or something is open and every open Low is above H.
pub fn stuck_from(links: Links, done: u32, w: Windows) -> bool
    ensures { result ≡ stuck_by links done w }
{
    if w.opens == 0 {
        !any_running(links, done)
    } else {
        all_above(w)
    }
}

// The latest of any clock: where clock + 100,000 does not fit, H is the lesser.
pub fn latest_from(clock: u32, high: u32) -> u32
    ensures { result ≡ latest_from clock high }
{
    if clock < NEVER - FARTHEST - FARTHEST {
        high.min(clock + FARTHEST + FARTHEST)
            .saturating_sub(FARTHEST)
    } else {
        high.saturating_sub(FARTHEST)
    }
}

// 23 to 30 in order for an event, or else 0, with the record beside it.
fn later_from(
    links: Links,
    clock: u32,
    done: u32,
    minutes: [u32; ROOM],
    w: Windows,
    event: &[u8],
) -> Refusal
    ensures { result ≡ with_record links done w event.now (later_by links clock done minutes w event.now) }
{
    if !is_formed(event, links.points) {
        return Refusal::new(NOT_FORMED, 0);
    }
    let e = event_in(event);
    let last = point_number(w, latest_from(clock, w.high), e);
    let number = set_number_of(links, clock, done, minutes, e.minute, e.set, last);
    Refusal::new(number, record_beside(links, done, w, e.point, number))
}

// 21 to 30 in order for an event, or else 0, with the record beside it.
pub fn number_from(
    links: Links,
    clock: u32,
    done: u32,
    minutes: [u32; ROOM],
    w: Windows,
    event: &[u8],
) -> Refusal
    ensures { result ≡ with_record links done w event.now (number_by links clock done minutes w event.now) }
{
    if done == first_points(links.points) {
        return Refusal::new(ALL_DONE, 0);
    }
    if stuck_from(links, done, w) {
        return Refusal::new(IS_STUCK, 0);
    }
    later_from(links, clock, done, minutes, w, event)
}
