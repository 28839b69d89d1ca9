// The windows from what is kept: which points are open, each one's Low, and H; and the first record that holds a shut point, found among
// the records that name that point, for all points or for one. An inner room: it serves `engine` and `steps`. What the rooms hold may be any numbers;
// proofs/Answering says that of a plan's rooms the answers are the plain engine's.

#![tactic(auto)]

ghost use Rattle.std.specs.Prelude.{◌≡◌, ◌%◌, ◌<◌, drop, replicate};
ghost use Rattle.points.specs.Sets.{members_of};
ghost use Rattle.plan.specs.Limits.{most_points};
ghost use Rattle.windows.specs.Inside.{least_at};
ghost use Rattle.neighbours.specs.Lists.{entries_of, first_at};
ghost use Rattle.kept.specs.Rooms.{highs_at};
ghost use Rattle.kept_windows.specs.Answers.{open_at, low_at, shut_by, shut_at, holder_at, HoldersOf, with_holders, Bare, Answered};

use kept::{CLOCK, DONE, HIGHS, KEPT, LOWS, RUNS, is_holding, place};
use lowhigh::{NEVER, with_if};
use neighbours::{LIST, SIDE, entries};
use points::{MOST, has, members};
use rows::{Row, SHEET, row_at};
use windows::Windows;

// A foreman's point not yet done that nothing holds.
fn is_open(kept: &[u32; KEPT], points: u32, watched: u32, p: u8) -> bool
    requires { p < most_points }
    ensures { result ≡ open_at kept.now points watched p }
{
    let holds = kept[usize::from(p)];
    let done = has(kept[DONE], p);
    ((u32::from(p) < points) & (!has(watched, p) & !done)) & (holds == 0)
}

// The Low of a point.
pub fn low_at(kept: &[u32; KEPT], p: u8) -> u32
    requires { p < most_points }
    ensures { result ≡ low_at kept.now p }
{
    let q = usize::from(p);
    kept[CLOCK].max(kept[LOWS + q].max(kept[RUNS + q]))
}

// The least High of some points, 100,000 up.
fn high_of(kept: &[u32; KEPT], set: u32) -> u32
    ensures { result ≡ least_at (drop highs_at kept.now) (members_of set) }
{
    let mut least = NEVER;
    for p in members(set) {
        least = least.min(kept[HIGHS + usize::from(p)]);
    }
    least
}

// A row still holds its first point shut.
fn still_holds(row: Row, done: u32) -> bool
    ensures { result ≡ shut_by row done }
{
    is_holding(row) & !has(done, place(row.to))
}

// The first record in file order that holds a point shut, 0 for none.
fn first_holder(rows: &[u32; SHEET], out: &[u16; LIST], done: u32, v: u8) -> u32
    ensures { result ≡ first_at (shut_at rows.now done) (entries_of out.now v) }
{
    for i in entries(out, usize::from(v)) {
        if still_holds(row_at(rows, i), done) {
            return i as u32;
        }
    }
    0
}

// The same, where nothing is read for a point that nothing holds.
fn holder_at(rows: &[u32; SHEET], out: &[u16; LIST], kept: &[u32; KEPT], p: u8) -> u32
    requires { p < most_points }
    ensures { result ≡ holder_at rows.now out.now kept.now p }
{
    if kept[usize::from(p)] == 0 {
        return 0;
    }
    first_holder(rows, out, kept[DONE], p)
}

// The windows of a plan of so many points, some of them watched, from the last point to the first; no record that holds a point is looked
// for, and `holders` is 0 throughout.
pub fn bare_windows(kept: &[u32; KEPT], points: u32, watched: u32) -> Windows
    ensures { Bare kept.now points watched result }
{
    let mut opens: u32 = 0;
    let mut lows: [u32; SIDE] = [0; SIDE];
    for p in (0..MOST).rev() {
        let q = usize::from(p);
        opens = with_if(is_open(kept, points, watched, p), opens, p);
        lows[q] = low_at(kept, p);
    }
    let holders: [u32; SIDE] = [0; SIDE];
    Windows {
        opens,
        holders,
        lows,
        high: high_of(kept, opens),
    }
}

// The first record that holds each point.
fn holders_of(rows: &[u32; SHEET], out: &[u16; LIST], kept: &[u32; KEPT]) -> [u32; SIDE]
    ensures { HoldersOf rows.now out.now kept.now result }
{
    let mut holders: [u32; SIDE] = [0; SIDE];
    for p in 0..MOST {
        holders[usize::from(p)] = holder_at(rows, out, kept, p);
    }
    holders
}

// Windows with these holders.
fn with_holders(w: Windows, holders: [u32; SIDE]) -> Windows
    ensures { result ≡ with_holders w holders }
{
    Windows { holders, ..w }
}

// The windows, with the record that holds each point.
pub fn windows_of(
    rows: &[u32; SHEET],
    out: &[u16; LIST],
    kept: &[u32; KEPT],
    points: u32,
    watched: u32,
) -> Windows
    ensures { Answered rows.now out.now kept.now points watched result }
{
    let holders = holders_of(rows, out, kept);
    with_holders(bare_windows(kept, points, watched), holders)
}

// Windows with the record that holds p in every place: of one event only its point's is read, so no other is looked for.
pub fn named_at(
    rows: &[u32; SHEET],
    out: &[u16; LIST],
    kept: &[u32; KEPT],
    w: Windows,
    p: u8,
) -> Windows
    ensures { result ≡ with_holders w (replicate most_points (holder_at rows.now out.now kept.now (p % most_points))) }
{
    let holder = holder_at(rows, out, kept, p % MOST);
    let holders: [u32; SIDE] = [holder; SIDE];
    with_holders(w, holders)
}
