// A sheet from the growers' office as its text comes, in pieces, cut anywhere: what is known of it before any byte, with a piece more, and with
// a last line that lacks its CR LF. Document 02, §1; where a text is in a field is told by `fields`, and what a whole line says by `cells`.
// Each byte is looked at once, and none is copied; any bytes are taken, of any length, in a room that does not grow. An inner room: it
// serves `office`, which hands on `begin` and `feed`. Nothing is asked of a caller.

#![tactic(auto)]

ghost use Rattle.std.specs.Prelude.{◌≡◌};
ghost use Rattle.office_text.specs.Feeding.{line_by, begun, line_begins, stopped, cells_with, fed_of, last_of};

use cells::{COLUMNS, line_by};
use fields::{Spot, Step, walk_from};
use records::{MOST_RECORDS, Record, no_records};
use rules::ACCEPTED;
use values::Seen;

// The reply number of a line whose columns cannot be told; 41 to 43 are those of `cells`.
pub const BROKEN_QUOTING: u32 = 40;

// What is known of a text that has come so far: a number and the first bad line, which stand; or number 0, the lines that are whole
// and their records, and of the line that has begun its commas, its columns and where it is.
// It is fed on, refused or not, and keeps its line: so no Result.
#[derive(Clone, Copy)]
pub struct Feeding {
    pub number: u32,
    pub lines: usize,
    pub records: [Record; MOST_RECORDS],
    pub commas: usize,
    pub cells: [Seen; COLUMNS],
    pub spot: Spot,
}

// A line whose last column is this one, behind so many commas.
fn line_of(commas: usize, cells: [Seen; COLUMNS], seen: Seen) -> Result<Record, u32>
    ensures { result ≡ line_by commas (cells_with commas cells seen) }
{
    let mut all = cells;
    all[commas % COLUMNS] = seen;
    line_by(commas, all)
}

// Where a line begins, behind so many others.
fn at_line(records: [Record; MOST_RECORDS], lines: usize) -> Feeding
    ensures { result ≡ line_begins lines records }
{
    let none = Seen::none();
    Feeding {
        number: ACCEPTED,
        lines,
        records,
        commas: 0,
        cells: [none; COLUMNS],
        spot: Spot::begin(),
    }
}

// A bad line stops it.
fn stop(number: u32, line: usize) -> Feeding
    ensures { result ≡ stopped number line }
{
    Feeding {
        number,
        ..at_line(no_records(), line)
    }
}

// Nothing of a text yet.
pub fn begin() -> Feeding
    ensures { result ≡ begun }
{
    at_line(no_records(), 0)
}

// With a piece more of the text. Columns past the sixth, and records that there is no room for, take the room of others, since the
// line, or the plan, is then refused.
pub fn feed(state: Feeding, piece: &[u8]) -> Feeding
    ensures { result ≡ fed_of state piece.now }
{
    if state.number != ACCEPTED {
        return state;
    }
    let none = Seen::none();
    let n = piece.len();
    let mut lines = state.lines;
    let mut records = state.records;
    let mut commas = state.commas;
    let mut cells = state.cells;
    let mut spot = state.spot;
    let mut i: usize = 0;
    // It goes on to where the field ends: no index is counted.
    while i < n {
        let gone = walk_from(piece, i, spot);
        let here = gone.spot;
        let step = gone.step;
        i = gone.next;
        match step {
            Step::On(next) => {
                spot = next;
            }
            Step::Comma => {
                cells[commas % COLUMNS] = here.seen;
                commas = commas.saturating_add(1).min(COLUMNS);
                spot = Spot::begin();
            }
            Step::Ends => match line_of(commas, cells, here.seen) {
                Ok(record) => {
                    records[lines % MOST_RECORDS] = record;
                    lines = lines.saturating_add(1);
                    commas = 0;
                    cells = [none; COLUMNS];
                    spot = Spot::begin();
                }
                Err(number) => return stop(number, lines),
            },
            Step::Broken => {
                return stop(BROKEN_QUOTING, lines);
            }
        }
    }
    Feeding {
        number: ACCEPTED,
        lines,
        records,
        commas,
        cells,
        spot,
    }
}

// With a last line that lacks its CR LF.
pub fn last_line(state: Feeding) -> Feeding
    ensures { result ≡ last_of state }
{
    let spot = state.spot;
    if (state.number != ACCEPTED) | (spot.is_at_begin() & (state.commas == 0)) {
        return state;
    }
    let lines = state.lines;
    if !spot.may_end() {
        return stop(BROKEN_QUOTING, lines);
    }
    match line_of(state.commas, state.cells, spot.seen) {
        Ok(record) => {
            let mut records = state.records;
            records[lines % MOST_RECORDS] = record;
            at_line(records, lines.saturating_add(1))
        }
        Err(number) => stop(number, lines),
    }
}
