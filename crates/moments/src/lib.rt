// The lines of an iCalendar event, into a buffer from a place on. Document 02, §10; specs/Event states them. An inner room:
// it serves `calendar`. What puts text into the buffer asks that there is room for it, and answers the place behind it.

#![tactic(auto)]

ghost use Rattle.std.specs.Prelude.{◌≡◌, ◌++◌};
ghost use Rattle.moments.specs.Event.{line, moment_text, uid_line, summary_line, event_text, event_length};
ghost use Rattle.buffers.specs.Inside.{Room, Laid};

use buffers::{digits_of, put, put_numbered};

// How many bytes a moment has: YYYYMMDDTHHMM00Z.
pub const MOMENT_BYTES: usize = 16;

// How many bytes an event has beside the two numbers of the point and the pond code.
const EVENT_FIXED: usize = 118;

// The sixteen bytes of a moment.
pub fn moment_of(year: u32, month: u32, day: u32, hour: u32, minute: u32) -> [u8; MOMENT_BYTES]
    ensures { result ≡ moment_text year month day hour minute }
{
    [
        b'0' + (year / 10 / 10 / 10 % 10) as u8,
        b'0' + (year / 10 / 10 % 10) as u8,
        b'0' + (year / 10 % 10) as u8,
        b'0' + (year % 10) as u8,
        b'0' + (month / 10 % 10) as u8,
        b'0' + (month % 10) as u8,
        b'0' + (day / 10 % 10) as u8,
        b'0' + (day % 10) as u8,
        b'T',
        b'0' + (hour / 10 % 10) as u8,
        b'0' + (hour % 10) as u8,
        b'0' + (minute / 10 % 10) as u8,
        b'0' + (minute % 10) as u8,
        b'0',
        b'0',
        b'Z',
    ]
}

// UID: the point's number, a hyphen and the moment.
fn put_uid(out: &mut [u8], at: usize, p: u32, moment: [u8; MOMENT_BYTES]) -> usize
    requires { Room out.old at (uid_line p moment) }
    ensures { Laid out.old at (uid_line p moment) out.new result }
{
    let hyphen = put_numbered(out, at, b"UID:", p);
    put_moment(out, hyphen, b"-", moment)
}

// DTSTAMP and DTSTART: a name with its colon, and the moment.
fn put_moment(out: &mut [u8], at: usize, name: &[u8], moment: [u8; MOMENT_BYTES]) -> usize
    requires { Room out.old at (line (name.now ++ moment)) }
    ensures { Laid out.old at (line (name.now ++ moment)) out.new result }
{
    let start = put(out, at, name);
    let end = put(out, start, &moment);
    put(out, end, b"\r\n")
}

// SUMMARY: the word Point, the number and the pond code.
fn put_summary(out: &mut [u8], at: usize, p: u32, code: u32) -> usize
    requires { Room out.old at (summary_line p code) }
    ensures { Laid out.old at (summary_line p code) out.new result }
{
    let pond = put_numbered(out, at, b"SUMMARY:Point ", p);
    let end = put_numbered(out, pond, b" ", code);
    put(out, end, b"\r\n")
}

// One event.
pub fn put_event(out: &mut [u8], at: usize, p: u32, code: u32, moment: [u8; MOMENT_BYTES]) -> usize
    requires { Room out.old at (event_text p code moment) }
    ensures { Laid out.old at (event_text p code moment) out.new result }
{
    let uid = put(out, at, b"BEGIN:VEVENT\r\n");
    let stamp = put_uid(out, uid, p, moment);
    let start = put_moment(out, stamp, b"DTSTAMP:", moment);
    let summary = put_moment(out, start, b"DTSTART:", moment);
    let end = put_summary(out, summary, p, code);
    put(out, end, b"END:VEVENT\r\n")
}

// How long an event is, whatever its moment.
pub fn event_length(p: u32, code: u32) -> usize
    ensures { result ≡ event_length p code }
{
    EVENT_FIXED + 2 * digits_of(p) + digits_of(code)
}
