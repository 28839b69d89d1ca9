// A line of a sheet from the growers' office by what is kept of its six columns: its record, or the number that it is refused with. Document
// 02, §1; what a column says is told by `values`. An inner room: it serves `office`.

#![tactic(auto)]

ghost use Rattle.std.specs.Prelude.{◌≡◌};
ghost use Rattle.cells.specs.Rows.{readable_in, record_in, line_by};

use records::Record;
use values::Seen;

// A kind word, two points, two numbers, a pond code.
pub const COLUMNS: usize = 6;

const COMMAS: usize = 5;

// The reply numbers of a line.
pub const COLUMN_COUNT: u32 = 41;

pub const UNREADABLE: u32 = 42;

pub const NO_CODE: u32 = 43;

// A word, two points and two numbers in the first five columns.
#[tactic(auto, unfolding(crate::specs::Rows::readable_in))]
fn is_readable(cells: [Seen; COLUMNS]) -> bool
    ensures { result ≡ readable_in cells }
{
    (cells[0].kind() != 0)
        & ((cells[1].is_point() & cells[2].is_point())
            & (cells[3].is_number() & cells[4].is_number()))
}

// The record that six columns make.
#[tactic(auto, unfolding(crate::specs::Rows::record_in))]
fn record_by(cells: [Seen; COLUMNS]) -> Record
    ensures { result ≡ record_in cells }
{
    Record {
        kind: cells[0].kind(),
        a: cells[1].point(),
        b: cells[2].point(),
        first: cells[3].number(),
        second: cells[4].number(),
        code: cells[5].code(),
    }
}

// A line of so many commas: its record, or the number that it is refused with.
#[tactic(auto, unfolding(crate::specs::Rows::line_by))]
pub fn line_by(commas: usize, cells: [Seen; COLUMNS]) -> Result<Record, u32>
    ensures { result ≡ line_by commas cells }
{
    if commas != COMMAS {
        return Err(COLUMN_COUNT);
    }
    if !is_readable(cells) {
        return Err(UNREADABLE);
    }
    if !cells[5].is_code() {
        return Err(NO_CODE);
    }
    Ok(record_by(cells))
}
