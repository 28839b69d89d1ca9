// Standard input as `sheet` reads it, without its lines: a plan part, the mark, and events. Of the events only the board after them is
// kept, so memory does not grow with the input.
ghost use Rattle.std.specs.Prelude.{◌≡◌, ◌*◌, ◌≤◌, length};
ghost use Rattle.plan.specs.Limits.{record_bytes};

use board::SAID;
use handles::read_full;
use std::io::Stdin;
use stream::{Sheet, Stage, is_mark};

const RECORD: usize = plan::RECORD_BYTES;

// The most records that are read at once: those of the largest plan, one more and the mark, so that a plan part that is not longer than
// any plan stands in a chunk whole.
const MANY: usize = plan::MOST_RECORDS + 2;

// The sheet after some records of a chunk, and the first record after those.
#[derive(Clone, Copy)]
struct Passed {
    sheet: Sheet,
    past: usize,
}

// The place of the first mark among n records, or n.
fn first_mark(chunk: &[u8], n: usize) -> usize
    requires { record_bytes * n ≤ length chunk.now }
    ensures { result ≤ n }
{
    for i in 0..n {
        let at = RECORD * i;
        if is_mark(&chunk[at..at + RECORD]) {
            return i;
        }
    }
    n
}

// The first records of n, as far as they are no events: those before the mark at once, since a sheet by value is copied, and the mark.
fn planned(sheet: Sheet, chunk: &[u8], n: usize) -> Passed
    requires { record_bytes * n ≤ length chunk.now }
    ensures { result.past ≤ n }
{
    if sheet.stage != Stage::Planning {
        return Passed { sheet, past: 0 };
    }
    let many = first_mark(chunk, n);
    let front = sheet.longer((RECORD * many) as u64);
    if many == n {
        return Passed {
            sheet: front,
            past: n,
        };
    }
    let at = RECORD * many;
    Passed {
        sheet: front.next(&chunk[at..at + RECORD], chunk),
        past: many + 1,
    }
}

// The n records of a chunk.
fn taken(sheet: Sheet, chunk: &[u8], n: usize) -> Sheet
    requires { record_bytes * n ≤ length chunk.now }
{
    let front = planned(sheet, chunk, n);
    let now = front.sheet;
    if now.stage != Stage::Playing {
        return now;
    }
    let mut space = [0u32; SAID * MANY];
    let room: &mut [u32] = &mut space;
    now.all_played(&chunk[RECORD * front.past..RECORD * n], room)
}

// The sheet after all of the input.
pub(crate) fn sheet_in(input: Stdin) -> Sheet {
    let mut room = [0u8; RECORD * MANY];
    let chunk: &mut [u8] = &mut room;
    let mut sheet = Sheet::new();
    let mut n: usize = 0;
    for _ in 0..u64::MAX {
        n = read_full(input, chunk);
        sheet = taken(sheet, chunk, n / RECORD);
        if n < chunk.len() {
            break;
        }
    }
    sheet.ended((n % RECORD) as u64, chunk)
}
