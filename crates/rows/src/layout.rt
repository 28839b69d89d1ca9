// A plan's records laid out on a sheet.
ghost use Rattle.std.specs.Prelude.{◌≡◌, ◌≤◌, ◌<◌, replicate};
ghost use Rattle.plan.specs.APlan.{records_of};
ghost use Rattle.plan.specs.Limits.{most_records};
ghost use Rattle.rows.specs.Sheet.{sheet_room};
ghost use Rattle.rows.specs.Layout.{row_from, Starts, widened, stored, LaidOut};

use crate::sheet::{SHEET, WIDTH};
use plan::{LINK, Plan, Record, WAIT, split};

// How many numbers a byte can be.
const BYTES: usize = 256;

// A row as the sheet holds it.
#[derive(Clone, Copy)]
struct Laid {
    kind: u32,
    from: u32,
    to: u32,
    first: u32,
    second: u32,
    over: u32,
}

// The A of the link that ends at each point, by the point's byte, 0 where none does: from the last record to the first, since the
// first link counts. One pass for the whole plan, so that laying it out does not look for a link in each row.
fn starts_of(plan: Plan) -> [u8; BYTES]
    requires { plan.count ≤ most_records }
    ensures { Starts (records_of plan) result }
{
    let mut starts = [0u8; BYTES];
    let count = plan.count as usize;
    for q in (0..count).rev() {
        let r = plan.records[q];
        if r.kind == LINK {
            starts[r.b as usize] = r.a;
        }
    }
    starts
}

// The row of a record, where `start` is the A of the link that ends at its second point.
fn row_of(r: Record, start: u8) -> Laid
    ensures { widened result ≡ row_from r start }
{
    let first = split(r.first);
    let second = split(r.second);
    let to = if r.kind == WAIT { start } else { r.b };
    let last = if r.kind == LINK {
        second.up
    } else {
        first.down
    };
    Laid {
        kind: u32::from(r.kind),
        from: u32::from(r.a),
        to: u32::from(to),
        first: first.up,
        second: last,
        over: u32::from(r.b),
    }
}

// Row `q` of the sheet.
fn write_row(sheet: &mut [u32; SHEET], q: usize, row: Laid)
    requires { q < most_records }
    ensures { sheet.new ≡ stored sheet.old q (widened row) }
{
    let at = q * WIDTH;
    sheet[at] = row.kind;
    sheet[at + 1] = row.from;
    sheet[at + 2] = row.to;
    sheet[at + 3] = row.first;
    sheet[at + 4] = row.second;
    sheet[at + 5] = row.over;
}

fn zeros(sheet: &mut [u32; SHEET])
    ensures { sheet.new ≡ replicate sheet_room 0 }
{
    *sheet = [0; SHEET];
}

// The sheet of a plan, and zeros behind its rows, whatever the sheet held.
pub fn lay_out(plan: Plan, sheet: &mut [u32; SHEET])
    requires { plan.count ≤ most_records }
    ensures { LaidOut (records_of plan) sheet.new }
{
    zeros(&mut *sheet);
    let starts = starts_of(plan);
    let count = plan.count as usize;
    for q in 0..count {
        let r = plan.records[q];
        write_row(&mut *sheet, q, row_of(r, starts[r.b as usize]));
    }
}
