// The projections of a sheet, walked link by link, and each of them judged.
ghost use Rattle.std.specs.Prelude.{◌≡◌, ◌<◌, set};
ghost use Rattle.tables.specs.Tables.{side};
ghost use Rattle.vee.specs.PlanTest.{unset, most_projections};
ghost use Rattle.vee.specs.Walked.{found_as, WalkReady, Walked, RowsReady, CountedAs};

use crate::Answer;
use projection::{Finding, judge};
use rows::{SHEET, row_at};
use tables::{NONE, ROOM, SIDE};

// The most projections that are tested.
pub(crate) const MOST_PROJECTIONS: u64 = 4096;

// The answer that a projection's number and what is found of it make.
fn answer_of(number: u32, found: Finding) -> Answer
    requires { number < most_projections }
    ensures { result ≡ found_as number found }
{
    match found {
        Finding::Good => Answer::Yes(number + 1),
        Finding::Cycle => Answer::Cycle(number),
        Finding::Pair(x, y) => Answer::Pair(number, x, y),
    }
}

// The durations with `p` for the link that ends at `c`.
fn lasting(durations: [u64; SIDE], c: usize, p: u64) -> [u64; SIDE]
    requires { c < side }
    ensures { result ≡ set durations c p }
{
    let mut w = durations;
    w[c] = p;
    w
}

// What is found of the projections that have these durations for all links but the `ahead` still open, the rows of
// which end before row `past`; the first of those projections is number `number`.
fn walk(
    ahead: usize,
    number: u32,
    durations: [u64; SIDE],
    sheet: &[u32; SHEET],
    m: usize,
    n: usize,
    past: usize,
    all: &mut [u32; ROOM],
    ways: &mut [u32; ROOM],
) -> Answer
    requires { WalkReady sheet.now durations m n past ahead number }
    ensures { Walked sheet.now durations m past ahead number result }
{
    if ahead == 0 {
        let judged = judge(&durations, sheet, m, n, &mut *all, &mut *ways);
        return answer_of(number, judged);
    }
    let row = row_at(sheet, past - ahead);
    let over = row.over as usize;
    let mut next = number;
    for p in row.first..row.second + 1 {
        let chosen = lasting(durations, over, p);
        let found = walk(
            ahead - 1,
            next,
            chosen,
            sheet,
            m,
            n,
            past,
            &mut *all,
            &mut *ways,
        );
        let Answer::Yes(k) = found else {
            return found;
        };
        next = k;
    }
    Answer::Yes(next)
}

// What is found of all projections, with two tables for every one of them and a small frame for each link.
pub(crate) fn walk_all(
    links: usize,
    sheet: &[u32; SHEET],
    m: usize,
    n: usize,
    past: usize,
) -> Answer
    requires { WalkReady sheet.now unset m n past links 0 }
    ensures { Walked sheet.now unset m past links 0 result }
{
    let mut all = [NONE; ROOM];
    let mut ways = [NONE; ROOM];
    let durations = [0u64; SIDE];
    walk(links, 0, durations, sheet, m, n, past, &mut all, &mut ways)
}

// How many projections the links of the `links` rows before row `past` have; once there are too many, some number that is
// too many. An inner function, which other crates may call.
pub fn projections(sheet: &[u32; SHEET], past: usize, links: usize) -> u64
    requires { RowsReady sheet.now past links }
    ensures { CountedAs sheet.now past links result }
{
    let mut total: u64 = 1;
    for k in 0..links {
        let row = row_at(sheet, past - (k + 1));
        total = (row.second + 1 - row.first) * total;
        if MOST_PROJECTIONS < total {
            return total;
        }
    }
    total
}
