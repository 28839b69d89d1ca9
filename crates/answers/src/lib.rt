// The lines of the program `desk` that `text` does not have, proved from what they tell. An inner room of that program.

#![tactic(auto)]

ghost use Rattle.std.specs.Prelude.{◌≡◌};
ghost use Rattle.answers.specs.Answers.{worst_line, day_refused, import_refused, close_refused, lighter_refused, dropped_line, calendar_refused, line_number};

use lines::{Line, number, numbers};
use plan::Refusal;
use worst::Found;

// The words of the lines: the ASCII codes of their letters, the first in the lowest byte.
const WORST: u64 = 0x7473726f77;

const DAY: u64 = 0x796164;

const IMPORT: u64 = 0x74726f706d69;

const CLOSE: u64 = 0x65736f6c63;

const LIGHTER: u64 = 0x7265746867696c;

const DROPPED: u64 = 0x646570706f7264;

const CALENDAR: u64 = 0x7261646e656c6163;

const LINE: u64 = 0x656e696c;

// `worst MINUTE PROJECTION`, or `worst NUMBER` for a plan that has been read.
pub fn worst_line(answer: Result<Found, Refusal>) -> Line
    ensures { result ≡ worst_line answer }
{
    match answer {
        Ok(found) => numbers(WORST, found.minute as u64, found.projection as u64),
        Err(refusal) => number(WORST, refusal.number),
    }
}

// `day NUMBER`: a day that is refused, of a plan that has been read.
pub fn day_refused(n: u32) -> Line
    ensures { result ≡ day_refused n }
{
    number(DAY, n)
}

// `import NUMBER LINE`: a text that is refused.
pub fn import_refused(n: u32, line: u64) -> Line
    ensures { result ≡ import_refused n line }
{
    numbers(IMPORT, n as u64, line)
}

// `close NUMBER`: a plan that has been read and is not made.
pub fn close_refused(n: u32) -> Line
    ensures { result ≡ close_refused n }
{
    number(CLOSE, n)
}

// `lighter NUMBER`: a plan that has been read and is not made lighter.
pub fn lighter_refused(n: u32) -> Line
    ensures { result ≡ lighter_refused n }
{
    number(LIGHTER, n)
}

// `dropped N`: the record N has gone.
pub fn dropped_line(n: u32) -> Line
    ensures { result ≡ dropped_line n }
{
    number(DROPPED, n)
}

// `calendar NUMBER`: a calendar that is refused, of a plan that has been read.
pub fn calendar_refused(n: u32) -> Line
    ensures { result ≡ calendar_refused n }
{
    number(CALENDAR, n)
}

// `line N`: which line of a listing was not as expected.
pub fn line_number(n: u32) -> Line
    ensures { result ≡ line_number n }
{
    number(LINE, n)
}
