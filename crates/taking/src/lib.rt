// An event on what a board holds: its number with the record beside it, and the clock, the done points, their minutes and the numbers
// of their events after it, from links and windows that are given, with no plan. Takes any of them and any bytes. An inner
// room: it serves `board`.

#![tactic(auto)]

ghost use Rattle.std.specs.Prelude.{◌≡◌, [], ◌∷◌};
ghost use Rattle.points.specs.Sets.{members_of};
ghost use Rattle.taking.specs.Steps.{marked_by, points_of, next_of, step_by, SetFits};

use events::{Event, NO_POINT, event_in};
use history::{ROOM, last_done};
use links::Links;
use lowhigh::NEVER;
use plan::ACCEPTED;
use planless::number_from;
use points::{MOST, members, with};
use windows::Windows;

// The done points, a minute for each point, and the number of the event that did it.
#[derive(Clone, Copy)]
pub struct Marks {
    pub done: u32,
    pub minutes: [u32; ROOM],
    pub calls: [u32; ROOM],
}

// What an event does: a reply number with the record that it is about, the clock and the marks after it.
// What a refusal hands back is part of the answer, as in `Taken`: so no Result.
#[derive(Clone, Copy)]
pub struct Step {
    pub number: u32,
    pub place: u32,
    pub clock: u32,
    pub marks: Marks,
}

// The points of a set done at the minute t by the event of number n.
fn mark_set(marks: Marks, set: u32, t: u32, n: u32) -> Marks
    ensures { result ≡ marked_by t n (members_of set) marks }
{
    let mut minutes = marks.minutes;
    let mut calls = marks.calls;
    let mut done = marks.done;
    for p in members(set) {
        let place = p as usize;
        minutes[place] = t;
        calls[place] = n;
        done = with(done, p);
    }
    Marks {
        done,
        minutes,
        calls,
    }
}

// A point done at the minute t by the event of number n. A point past the last place changes nothing.
fn mark(marks: Marks, p: u8, t: u32, n: u32) -> Marks
    ensures { result ≡ marked_by t n (p ∷ []) marks }
{
    if p < MOST {
        let mut minutes = marks.minutes;
        let mut calls = marks.calls;
        let place = p as usize;
        minutes[place] = t;
        calls[place] = n;
        return Marks {
            done: with(marks.done, p),
            minutes,
            calls,
        };
    }
    marks
}

// The marks after an event of number n.
pub fn after(marks: Marks, e: Event, n: u32) -> Marks
    ensures { result ≡ marked_by e.minute n (points_of e) marks }
{
    let next = mark_set(marks, e.set, e.minute, n);
    if e.point == NO_POINT {
        next
    } else {
        mark(next, e.point, e.minute, n)
    }
}

// The number of the next event, as far as there is one.
fn next_call(marks: Marks) -> u32
    ensures { result ≡ next_of marks }
{
    let calls = marks.calls;
    last_done(marks.done, calls).min(NEVER - 1) + 1
}

// One event: what it does, or a number with the record beside it and everything as it was.
pub fn step_from(links: Links, clock: u32, marks: Marks, w: Windows, event: &[u8]) -> Step
    ensures step { result ≡ step_by links clock marks w event.now }
    ensures set { SetFits links clock marks.done marks.minutes w event.now }
{
    let minutes = marks.minutes;
    let found = number_from(links, clock, marks.done, minutes, w, event);
    if found.number != ACCEPTED {
        return Step {
            number: found.number,
            place: found.place,
            clock,
            marks,
        };
    }
    let e = event_in(event);
    Step {
        number: ACCEPTED,
        place: 0,
        clock: e.minute,
        marks: after(marks, e, next_call(marks)),
    }
}
