// The next event of a board at fixed durations, where the foreman takes the aim: the first open point of the least Low. From what is
// kept of the board (document 02, §5) and the A of each link, so that no record is read for an event. An inner room: it serves
// `worst`. What the rooms hold may be any numbers; proofs/TheEvent says that of a plan's rooms the event is the rules'.

#![tactic(auto)]

ghost use Rattle.std.specs.Prelude.{◌≡◌, ◌%◌, ◌^◌, ◌<◌, ◌≤◌, if◌then◌else◌};
ghost use Rattle.plan.specs.Limits.{most_points, most_records};
ghost use Rattle.points.specs.Sets.{from};
ghost use Rattle.promise.specs.Plays.{set_of};
ghost use Rattle.steps.specs.Found.{StartsIn, RoomsOf, open_by, low_by, end_by, ends_then, nearer, nearest, earlier, event_by};

use events::{Event, NO_POINT};
use kept::{DONE, KEPT, MINUTES, place, sum};
use kept_windows::low_at;
use lowhigh::{NEVER, either, with_if};
use neighbours::LIST;
use plan::LINK;
use points::{MOST, has};
use rooms::list;
use rows::{SHEET, row_at};
use tables::SIDE;

// The kind of a link, as a row has it.
const LINK_ROW: u64 = LINK as u64;

// A minute, and the first point that has it.
#[derive(Clone, Copy)]
pub struct Least {
    pub minute: u32,
    pub point: u8,
}

// ---- the links

// The first where `so`, else the second.
fn pick(so: bool, a: u8, b: u8) -> u8
    ensures { result ≡ (if so then a else b) }
{
    if so { a } else { b }
}

// The A of the link that ends at each point by the first m rows, past the last place where none does: from the last row to the first.
fn starts_of(sheet: &[u32; SHEET], m: usize) -> [u8; SIDE]
    requires { m ≤ most_records }
    ensures { StartsIn sheet.now m result }
{
    let mut starts = [MOST; SIDE];
    for q in (0..m).rev() {
        let row = row_at(sheet, q);
        let c = place(row.over) as usize;
        starts[c] = pick(row.kind == LINK_ROW, place(row.from), starts[c]);
    }
    starts
}

// The rooms of a run, from the first m rows: the three lists of them, what is kept of the fresh board, and where each link starts.
pub fn begin_rooms(
    sheet: &[u32; SHEET],
    m: usize,
    into: &mut [u16; LIST],
    out: &mut [u16; LIST],
    ends: &mut [u16; LIST],
    begun: &mut [u32; KEPT],
) -> [u8; SIDE]
    requires { m ≤ most_records }
    ensures { RoomsOf sheet.now m into.new out.new ends.new begun.new result }
{
    list(sheet, m, into, out, ends, begun);
    starts_of(sheet, m)
}

// ---- one point

fn narrow(x: u64) -> u32
    ensures { result ≡ x % 2 ^ 32 }
{
    (x % 4294967296) as u32
}

// A foreman's point not yet done that nothing holds.
fn is_open(kept: &[u32; KEPT], starts: &[u8; SIDE], n: u32, q: u8) -> bool
    requires { q < most_points }
    ensures { result ≡ open_by kept.now starts.now n q }
{
    let at = q as usize;
    let start = starts[at];
    let holds = kept[at];
    let done = has(kept[DONE], q);
    (((q as u32) < n) & ((MOST <= start) & !done)) & (holds == 0)
}

// The place of a point.
fn place_of(a: u8) -> usize
    ensures { result ≡ a % most_points }
{
    a as usize % SIDE
}

// The Low of an open point, past every minute where it is not open.
fn low_by(kept: &[u32; KEPT], starts: &[u8; SIDE], n: u32, q: u8) -> u32
    requires { q < most_points }
    ensures { result ≡ low_by kept.now starts.now n q }
{
    if !is_open(kept, starts, n, q) {
        return NEVER;
    }
    low_at(kept, q)
}

// When the link that ends at a point ends, past every minute where none is running.
fn end_by(kept: &[u32; KEPT], starts: &[u8; SIDE], durations: &[u64; SIDE], c: u8) -> u32
    requires { c < most_points }
    ensures { result ≡ end_by kept.now starts.now durations.now c }
{
    let at = c as usize;
    let a = starts[at];
    let done = kept[DONE];
    if !has(done, a) {
        return NEVER;
    }
    let start = kept[MINUTES + place_of(a)];
    either(has(done, c), NEVER, sum(start, narrow(durations[at])))
}

// ---- all points

// What is found so far, or the point q at t where that is sooner.
fn nearer(found: Least, t: u32, q: u8) -> Least
    ensures { result ≡ nearer found t q }
{
    if t < found.minute {
        Least {
            minute: t,
            point: q,
        }
    } else {
        found
    }
}

// The least Low of the open points, and the first point that has it.
fn aim_of(kept: &[u32; KEPT], starts: &[u8; SIDE], n: u32) -> Least
    ensures { result ≡ nearest (low_by kept.now starts.now n) }
{
    let mut found = Least {
        minute: NEVER,
        point: NO_POINT,
    };
    for q in 0..MOST {
        found = nearer(found, low_by(kept, starts, n, q), q);
    }
    found
}

// When the first running link ends, and the first point that ends one then.
fn end_of(kept: &[u32; KEPT], starts: &[u8; SIDE], durations: &[u64; SIDE]) -> Least
    ensures { result ≡ nearest (end_by kept.now starts.now durations.now) }
{
    let mut found = Least {
        minute: NEVER,
        point: NO_POINT,
    };
    for c in 0..MOST {
        found = nearer(found, end_by(kept, starts, durations, c), c);
    }
    found
}

// The points that end a running link at the minute t.
fn ending(kept: &[u32; KEPT], starts: &[u8; SIDE], durations: &[u64; SIDE], t: u32) -> u32
    ensures { result ≡ set_of (ends_then kept.now starts.now durations.now t) (from 0 most_points) }
{
    let mut set: u32 = 0;
    for c in (0..MOST).rev() {
        let end = end_by(kept, starts, durations, c);
        set = with_if((end == t) & (t < NEVER), set, c);
    }
    set
}

// The same, where the first link ends at the minute `soonest`: before that none does.
fn ending_from(
    kept: &[u32; KEPT],
    starts: &[u8; SIDE],
    durations: &[u64; SIDE],
    t: u32,
    soonest: u32,
) -> u32
    requires { soonest ≡ (nearest (end_by kept.now starts.now durations.now)).minute }
    ensures { result ≡ set_of (ends_then kept.now starts.now durations.now t) (from 0 most_points) }
{
    if t < soonest {
        return 0;
    }
    ending(kept, starts, durations, t)
}

// The aim, or the end of a link where that is before it.
fn first_of(aim: Least, end: Least) -> Least
    ensures { result ≡ earlier aim end.minute }
{
    if aim.minute <= end.minute {
        aim
    } else {
        Least {
            minute: end.minute,
            point: NO_POINT,
        }
    }
}

// The event of a board, of a plan of n points.
pub fn next_event(kept: &[u32; KEPT], starts: &[u8; SIDE], n: u32, durations: &[u64; SIDE]) -> Event
    ensures { result ≡ event_by kept.now starts.now n durations.now }
{
    let end = end_of(kept, starts, durations);
    let first = first_of(aim_of(kept, starts, n), end);
    Event {
        minute: first.minute,
        point: first.point,
        set: ending_from(kept, starts, durations, first.minute, end.minute),
    }
}
