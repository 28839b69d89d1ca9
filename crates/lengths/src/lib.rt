// Lengths of walks, and the best that the windows can follow: the least length of a walk of negative edges and then non-negative ones from
// one point to another, from the distances over the negative edges and over the others. An inner room of `explained`: some functions
// have a `requires`, which every caller is proved to meet.

#![tactic(auto)]

ghost use Rattle.std.specs.Prelude.{◌≡◌, ◌<◌, ◌≤◌};
ghost use Rattle.network.specs.Walks.{Vee};
ghost use Rattle.tables.specs.Tables.{side};
ghost use Rattle.rows.specs.Sheet.{SheetEdge};
ghost use Rattle.lengths.specs.Lengths.{length_of, Least};
ghost use Rattle.lengths.specs.Meets.{never, together, length_from, MeetAsks, Met, AllowAsks};

use rows::{SHEET, fill};
use tables::{NONE, Part, ROOM, SIDE};

// The length of a walk, `up` less `down`, of which one is 0.
#[derive(Clone, Copy)]
pub struct Length {
    pub up: u64,
    pub down: u64,
}

// More than any two numbers of a table come to.
const NEVER: u64 = 4294967296;

// Two distances that are added have twice the bias, which is `NONE`.
const TWICE: u64 = NONE as u64;

// The length `up` less `down`.
pub fn length_of(up: u64, down: u64) -> Length
    ensures { result ≡ length_of up down }
{
    Length {
        up: up.saturating_sub(down),
        down: down.saturating_sub(up),
    }
}

// A distance and another after it, `NEVER` where one is missing: a number for that and no `None`, since the least of all is then a plain `min`.
fn both(a: u32, b: u32) -> u64
    ensures { result ≡ together a b }
{
    if a < NONE && b < NONE {
        u64::from(a) + u64::from(b)
    } else {
        NEVER
    }
}

// The least that a way down from `x` to some point and a way up from there to `y` come to.
fn meet(fall: &[u32; ROOM], rise: &[u32; ROOM], n: usize, x: usize, y: usize) -> u64
    requires { MeetAsks n x y }
    ensures { Met n fall.now rise.now x y result }
{
    let mut best = NEVER;
    for k in 0..n {
        best = best.min(both(fall[x * SIDE + k], rise[k * SIDE + y]));
    }
    best
}

fn length_from(v: u64) -> Option<Length>
    ensures { result ≡ length_from v }
{
    if v < NEVER {
        Some(length_of(v, TWICE))
    } else {
        None
    }
}

// The least length of a walk of negative edges and then non-negative ones from `x` to `y`, if there is one.
pub fn allowed(
    sheet: &[u32; SHEET],
    durations: &[u64; SIDE],
    m: usize,
    n: usize,
    x: usize,
    y: usize,
    fall: &mut [u32; ROOM],
    rise: &mut [u32; ROOM],
) -> Option<Length>
    requires { AllowAsks sheet.now durations.now m n x y }
    ensures { Least (Vee (SheetEdge sheet.now durations.now m) x y) result }
{
    fill(&mut *fall, Part::Falling, sheet, durations, n, m);
    fill(&mut *rise, Part::Rising, sheet, durations, n, m);
    length_from(meet(&*fall, &*rise, n, x, y))
}
