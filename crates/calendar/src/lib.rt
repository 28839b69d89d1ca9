// Sheets in the crews' calendars: document 02, §10. `write_calendar` writes a finished board as an iCalendar text by RFC
// 5545; it takes any plan, any board, any origin and any buffer and answers. The lines of an event come from the room
// below, `moments`, and dates from `dates`. The inner functions take the number and the pond codes of the points, no plan, and assume room for
// what they write; `write_by` is for callers who have read the plan and know that it is accepted.

#![tactic(auto)]

ghost use Rattle.std.specs.Prelude.{◌≡◌, ◌+◌, ◌≤◌, length};
ghost use Rattle.plan.specs.Limits.{most_points};
ghost use Rattle.plan.specs.ReplyNumbers.{refusal};
ghost use Rattle.buffers.specs.Inside.{Laid};
ghost use Rattle.calendar.specs.Calendars.{moment_of, events_of, events_length, most_text, calendar_of, written_of};
ghost use Rattle.calendar.specs.Inside.{coded, length_by, text_by, WrittenBy};

use board::{Board, minute_of};
use buffers::put;
use codes::{ROOM, ponds_of};
use dates::{Stamp, is_origin, shown};
use links::{Links, links_by};
use moments::{MOMENT_BYTES, event_length, moment_of, put_event};
use plan::{ACCEPTED, Plan, Refusal, check};
use verdict::ended_by;

// The reply numbers 51 and 52.
pub const NO_ORIGIN: u32 = 51;

pub const NO_ROOM: u32 = 52;

// No sheet's text is longer than this: 32 points with the longest pond codes.
pub const MOST_TEXT: usize = 4_278;

// How long the lines before the events and the one behind them are.
const AROUND: usize = 74;

// A buffer of so many bytes is enough for every sheet.
pub fn most_text() -> usize
    ensures { result ≡ most_text }
{
    MOST_TEXT
}

// The moment at which a point was done.
fn moment_at(board: Board, origin: Stamp, p: u8) -> [u8; MOMENT_BYTES]
    ensures { result ≡ moment_of board origin p }
{
    let s = shown(origin, minute_of(board, p));
    moment_of(s.year, s.month, s.day, s.hour, s.minute)
}

// How long the whole text is, for n points with these pond codes.
fn text_length(ponds: [u32; ROOM], n: u32) -> usize
    requires { n ≤ most_points }
    ensures { result ≡ length_by ponds n }
{
    let mut k = AROUND;
    for p in 0..n {
        k += event_length(p, ponds[p as usize]);
    }
    k
}

// The events of n points with these pond codes, in point order.
fn put_events(
    out: &mut [u8],
    at: usize,
    ponds: [u32; ROOM],
    n: u32,
    board: Board,
    origin: Stamp,
) -> usize
    requires { (n ≤ most_points) × (at + events_length (coded ponds) n ≤ length out.old) }
    ensures { Laid out.old at (events_of (coded ponds) board origin n) out.new result }
{
    let mut next = at;
    for p in 0..n {
        let moment = moment_at(board, origin, p as u8);
        next = put_event(out, next, p, ponds[p as usize], moment);
    }
    next
}

// The whole text, from the buffer's front on.
fn put_calendar(out: &mut [u8], ponds: [u32; ROOM], n: u32, board: Board, origin: Stamp) -> usize
    requires { (n ≤ most_points) × (length_by ponds n ≤ length out.old) }
    ensures { Laid out.old 0 (text_by ponds n board origin) out.new result }
{
    let first = put(
        out,
        0,
        b"BEGIN:VCALENDAR\r\nVERSION:2.0\r\nPRODID:-//Ponds//Sheets//EN\r\n",
    );
    let end = put_events(out, first, ponds, n, board, origin);
    put(out, end, b"END:VCALENDAR\r\n")
}

// The same as `write_calendar`, by the links and the pond codes of an accepted plan.
pub fn write_by(
    links: Links,
    ponds: [u32; ROOM],
    board: Board,
    origin: Stamp,
    out: &mut [u8],
) -> Result<usize, Refusal>
    requires { links.points ≤ most_points }
    ensures { WrittenBy links ponds board origin out.old result out.new }
{
    let found = ended_by(board, links);
    if found.number != ACCEPTED {
        return Err(found);
    }
    if !is_origin(origin) {
        return Err(refusal(NO_ORIGIN));
    }
    let n = links.points;
    if out.len() < text_length(ponds, n) {
        return Err(refusal(NO_ROOM));
    }
    Ok(put_calendar(out, ponds, n, board, origin))
}

// A refusal that is about no record.
fn refusal(number: u32) -> Refusal
    ensures { result ≡ refusal number 0 }
{
    Refusal { number, place: 0 }
}

// Writes a finished board as an iCalendar text into the front of the buffer, and answers how long it is; or a refusal, which changes no
// byte of the buffer.
pub fn write_calendar(
    plan: Plan,
    board: Board,
    origin: Stamp,
    out: &mut [u8],
) -> Result<usize, Refusal>
    ensures reply { result ≡ calendar_of plan board origin out.old }
    ensures bytes { out.new ≡ written_of plan board origin out.old }
{
    let found = check(plan);
    if found.number != ACCEPTED {
        return Err(found);
    }
    let links = links_by(plan, true);
    write_by(links, ponds_of(plan), board, origin, out)
}
