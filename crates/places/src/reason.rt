// The record of a row, as far as a line shows it. Rows may hold any numbers.
ghost use Rattle.std.specs.Prelude.{◌≡◌, ◌%◌};
ghost use Rattle.places.specs.Places.{joined, reason_of, reason_at};

use events::fewer;
use numbers::signed;
use plan::{MOST_RECORDS, Record};
use rows::{Row, SHEET, row_at};

// Past every number of 32 bits.
const WORD: u64 = 4294967296;

// A number from what it adds and what it takes away.
fn joined(up: u64, down: u64) -> i32
    ensures { result ≡ joined up down }
{
    let bits = (up % WORD + (WORD - down % WORD)) % WORD;
    signed(bits as u32)
}

fn byte(x: u64) -> u8
    ensures { result ≡ x % 256 }
{
    (x % 256) as u8
}

fn reason_of(row: Row) -> Record
    ensures { result ≡ reason_of row }
{
    Record {
        kind: byte(row.kind),
        a: byte(row.from),
        b: byte(row.over),
        first: joined(row.first, row.second),
        second: 0,
        code: 0,
    }
}

// The record of row n; a number past all rows reads the last.
pub(crate) fn reason_at(rows: &[u32; SHEET], n: u32) -> Record
    ensures { result ≡ reason_at rows.now n }
{
    let q = fewer(n as usize, MOST_RECORDS - 1);
    reason_of(row_at(rows, q))
}
