// Events: each is taken in the engine's rooms, and its lines are made. No plan is passed on here.
ghost use Rattle.std.specs.Prelude.{◌≡◌, ◌+◌, ◌≤◌, length};
ghost use Rattle.saying.specs.Makes.{most_made, EventPut, EventsPut};

use crate::{put_board, put_line};
use engine::{KEPT, LIST};
use links::Links;
use places::{ROOM, kept_line};
use plan::RECORD_BYTES;
use rows::SHEET;
use stream::fits;

// The most bytes that are made at once: the line of an event or of the plan test, what the board is, a line for each point, and the end.
pub const MOST: usize = text::ROOM * (ROOM + 3);

// How many bytes of the input were used, where the lines end, and the number of the next event.
#[derive(Clone, Copy)]
pub struct Said {
    pub used: usize,
    pub end: usize,
    pub events: u64,
}

// An event: one line, or, in full, its reply number and the record beside it, and what the board is then.
pub fn put_event(
    full: bool,
    links: Links,
    ponds: [u32; ROOM],
    rows: &[u32; SHEET],
    into: &[u16; LIST],
    out: &[u16; LIST],
    ends: &[u16; LIST],
    kept: &mut [u32; KEPT],
    event: &[u8],
    k: u64,
    lines: &mut [u8],
    at: usize,
) -> usize
    requires { at + most_made ≤ length lines.old }
    ensures { EventPut full links ponds rows.now into.now out.now ends.now kept.old k event.now lines.old at kept.new lines.new result }
{
    let found = engine::take(links, rows, into, out, ends, &mut *kept, event);
    if !full {
        return put_line(lines, at, kept_line(&*kept, k, found.number));
    }
    let first = put_line(lines, at, text::reply_line(k, found.number, found.place));
    put_board(links, ponds, rows, out, &*kept, lines, first)
}

// The whole records of some bytes, one event after the other, as far as there is room for the lines of one more.
pub fn put_events(
    full: bool,
    links: Links,
    ponds: [u32; ROOM],
    rows: &[u32; SHEET],
    into: &[u16; LIST],
    out: &[u16; LIST],
    ends: &[u16; LIST],
    kept: &mut [u32; KEPT],
    bytes: &[u8],
    k: u64,
    lines: &mut [u8],
    at: usize,
) -> Said
    ensures { EventsPut full links ponds rows.now into.now out.now ends.now kept.old bytes.now k lines.old at kept.new lines.new result }
{
    let n = bytes.len() / RECORD_BYTES;
    let mut next = k;
    let mut end = at;
    // how many were put is answered too, so the count goes on behind the loop, which may stop early
    let mut i: usize = 0;
    while i < n {
        if !fits(lines.len(), end, MOST) {
            break;
        }
        let event = &bytes[RECORD_BYTES * i..RECORD_BYTES * i + RECORD_BYTES];
        end = put_event(
            full, links, ponds, rows, into, out, ends, &mut *kept, event, next, lines, end,
        );
        next = next.wrapping_add(1);
        i += 1;
    }
    Said {
        used: RECORD_BYTES * i,
        end,
        events: next,
    }
}
