// The durations of a projection by its number, and the drives that they are: one for each link, in file order.
ghost use Rattle.std.specs.Prelude.{◌≡◌, [], ◌<◌, ◌≤◌};
ghost use Rattle.vee.specs.Walked.{RowsReady, CountedAs};
ghost use Rattle.choices.specs.Choices.{ChosenAs};
ghost use Rattle.explained.specs.Drives.{DurationAsks, with_drive, DriveAsks, drives_as, drives_from, most_links};

use choices::chosen;
use plan::MOST_LINKS;
use rows::{LINK_ROW, Row, SHEET, row_at};
use tables::SIDE;

// The A and the C of a link, and how long it lasts.
#[derive(Clone, Copy)]
pub struct Drive {
    pub from: u64,
    pub to: u64,
    pub minutes: u64,
}

// A place for each link.
pub const LINKS: usize = MOST_LINKS as usize;

const NO_DRIVE: Drive = Drive {
    from: 0,
    to: 0,
    minutes: 0,
};

// The most projections that are tested.
const MOST_PROJECTIONS: u64 = 4096;

// So many drives; the room after them is zero.
// A room with its length beside it: the project has no heap.
#[derive(Clone, Copy)]
pub struct Drives {
    pub count: usize,
    pub list: [Drive; LINKS],
}

// How many projections the links of the `links` rows before row `past` have; once there are too many, some number that is too many.
// `vee::projections` says the same to other crates.
fn projections(sheet: &[u32; SHEET], past: usize, links: usize) -> u64
    requires { RowsReady sheet.now past links }
    ensures { CountedAs sheet.now past links result }
{
    let mut total: u64 = 1;
    for k in 0..links {
        let row = row_at(sheet, past - (k + 1));
        total = (row.second + 1 - row.first) * total;
        if MOST_PROJECTIONS < total {
            return total;
        }
    }
    total
}

// The durations of projection `number`.
pub(crate) fn durations_of(
    sheet: &[u32; SHEET],
    past: usize,
    links: usize,
    number: u32,
) -> [u64; SIDE]
    requires { DurationAsks sheet.now past links number }
    ensures { ChosenAs sheet.now past links number result }
{
    let many = projections(sheet, past, links);
    chosen(sheet, past, links, many as u32, number)
}

pub(crate) fn no_drives() -> Drives
    ensures { result ≡ drives_as [] }
{
    let list = [NO_DRIVE; LINKS];
    Drives { count: 0, list }
}

// The drives with that of a row more, if it is a link, which lasts `p`.
fn with_drive(drives: Drives, row: Row, p: u64) -> Drives
    requires { row.kind ≡ 2 → drives.count < most_links }
    ensures { result ≡ with_drive drives row p }
{
    if row.kind != LINK_ROW {
        return drives;
    }
    let count = drives.count;
    let mut list = drives.list;
    list[count] = Drive {
        from: row.from,
        to: row.over,
        minutes: p,
    };
    Drives {
        count: count + 1,
        list,
    }
}

// The drives of a sheet's links at the durations.
pub(crate) fn drives_of(sheet: &[u32; SHEET], durations: &[u64; SIDE], m: usize) -> Drives
    requires { DriveAsks sheet.now durations.now m }
    ensures { result ≡ drives_as (drives_from sheet.now durations.now 0 m) }
{
    let mut drives = no_drives();
    for q in 0..m {
        let row = row_at(sheet, q);
        drives = with_drive(drives, row, durations[row.over as usize]);
    }
    drives
}
