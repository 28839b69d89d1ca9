// A listing typed by people as the bytes that the programs read: a record of sixteen bytes for each line that has words, nothing
// unless every line is good. specs/Listing states it. `pack` goes over the text twice, line by line, and copies none of it: first it
// looks for a bad line and counts the records, then it writes them. It takes any bytes, of any length, and any buffer.

#![tactic(auto)]

ghost use Rattle.std.specs.Prelude.{◌≡◌, ◌+◌, ◌*◌, ◌≤◌, length, drop};
ghost use Rattle.std.specs.Result.{IsOkAnd};
ghost use Rattle.records.specs.Limits.{record_bytes};
ghost use Rattle.listing.specs.Listing.{outcome_of, bytes_said, written, answer_of, buffer_of};
ghost use Rattle.sayings.specs.declared.Said.TheVariants.{Event};
ghost use Rattle.listing.specs.Inside.{line_at, one_if, scanned, full_bytes, put_of};

use phrases::{Word, line_end, word_at};
use records::{RECORD_BYTES, bytes_of, put};
use sayings::{CELLS, Said, row_by};

// No line is bad, but the buffer is too short. The numbers of bad lines are those of `sayings`.
pub const A_LONGER_BUFFER: u32 = 8;

// What a text is refused with: what was expected, and the line, counted from 1; or the buffer's length, and no line.
#[derive(Clone, Copy)]
pub struct Refused {
    pub number: u32,
    pub line: usize,
}

// A line: what it says, or the number of what was expected; and the place behind it.
#[derive(Clone, Copy)]
struct Line {
    said: Result<Said, u32>,
    next: usize,
}

// The line of a text that begins at a place. Words past the cells share the last one.
fn line_at(text: &[u8], at: usize) -> Line
    ensures { result ≡ line_at at (drop at text.now) }
{
    let none = Word::none();
    let mut cells = [none; CELLS];
    let mut words: usize = 0;
    let mut from = at;
    // It goes on to where the word ends: no index is counted.
    loop {
        let found = word_at(text, from);
        if found.word.seen.count == 0 {
            return Line {
                said: row_by(words, cells),
                next: line_end(text, found.next),
            };
        }
        cells[words.min(CELLS - 1)] = found.word;
        words += 1;
        from = found.next;
    }
}

// How many records a line makes.
fn one_if(said: Said) -> usize
    ensures { (result ≡ one_if said) × (result ≤ 1) }
{
    match said {
        Said::Nothing => 0,
        Said::Plan(_) => 1,
        Said::Mark => 1,
        Said::Event(_, _, _) => 1,
    }
}

// The text gone over: how many records it makes.
fn scan(text: &[u8]) -> Result<usize, Refused>
    ensures { result ≡ scanned (outcome_of text.now) }
{
    let n = text.len();
    let mut lines: usize = 0;
    let mut records: usize = 0;
    let mut at: usize = 0;
    // It goes on to where the line ends: no index is counted.
    while at < n {
        let line = line_at(text, at);
        lines += 1;
        let said = match line.said {
            Ok(said) => said,
            Err(number) => return Err(Refused {
                number,
                line: lines,
            }),
        };
        records += one_if(said);
        at = line.next;
    }
    Ok(records)
}

// The sixteen bytes of an event.
fn event_bytes(m: u32, p: u32, s: u32) -> [u8; RECORD_BYTES]
    ensures { result ≡ bytes_said (Event m p s) }
{
    [
        (m % 256) as u8,
        (m / 256 % 256) as u8,
        (m / 256 / 256 % 256) as u8,
        (m / 256 / 256 / 256 % 256) as u8,
        (p % 256) as u8,
        (p / 256 % 256) as u8,
        (p / 256 / 256 % 256) as u8,
        (p / 256 / 256 / 256 % 256) as u8,
        (s % 256) as u8,
        (s / 256 % 256) as u8,
        (s / 256 / 256 % 256) as u8,
        (s / 256 / 256 / 256 % 256) as u8,
        0,
        0,
        0,
        0,
    ]
}

// The sixteen bytes of a line's record; zeros where it makes none.
fn bytes_in(said: Said) -> [u8; RECORD_BYTES]
    ensures { result ≡ full_bytes said }
{
    match said {
        Said::Nothing => [0u8; RECORD_BYTES],
        Said::Plan(r) => bytes_of(r),
        Said::Mark => [255u8; RECORD_BYTES],
        Said::Event(m, p, s) => event_bytes(m, p, s),
    }
}

// A line's record into the buffer, from `at` on.
fn put_said(out: &mut [u8], at: usize, said: Said)
    requires { at + record_bytes * one_if said ≤ length out.old }
    ensures { out.new ≡ put_of out.old at said }
{
    if one_if(said) == 0 {
        return;
    }
    put(out, at, bytes_in(said));
}

// The records of a good text into the front of the buffer.
fn write(text: &[u8], out: &mut [u8])
    requires { IsOkAnd (scanned (outcome_of text.now)) (λ records. record_bytes * records ≤ length out.old) }
    ensures { out.new ≡ written out.old (outcome_of text.now) }
{
    let n = text.len();
    let mut to: usize = 0;
    let mut at: usize = 0;
    // It goes on to where the line ends: no index is counted.
    while at < n {
        let line = line_at(text, at);
        if let Ok(said) = line.said {
            put_said(out, to, said);
            to += RECORD_BYTES * one_if(said);
        }
        at = line.next;
    }
}

// Packs a listing into the front of the buffer, and answers how many bytes were written; or changes none of it.
pub fn pack(text: &[u8], out: &mut [u8]) -> Result<usize, Refused>
    ensures { (result ≡ answer_of text.now out.old) × (out.new ≡ buffer_of text.now out.old) }
{
    let records = scan(text)?;
    if out.len() / RECORD_BYTES < records {
        return Err(Refused {
            number: A_LONGER_BUFFER,
            line: 0,
        });
    }
    write(text, out);
    Ok(RECORD_BYTES * records)
}
