// What an event changes of what is kept: each of its points in turn.
ghost use Rattle.std.specs.Prelude.{◌≡◌, ◌<◌};
ghost use Rattle.points.specs.Sets.{members_of};
ghost use Rattle.plan.specs.Limits.{most_points, most_records};
ghost use Rattle.neighbours.specs.Lists.{over, entries_of, top_at};
ghost use Rattle.kept.specs.Rooms.{freed_at, bounded_at, running_at, remade_at, marked_by, done_by, all_done_by, points_of, event_done_by};

use events::Event;
use kept_rows::{CALLS, CLOCK, DONE, KEPT, LAST, MINUTES, RUNS, bound, free, place, run_now, sum};
use neighbours::{LIST, entries};
use points::{MOST, members, with};
use rows::{SHEET, row_at};

// Every record that z sets free.
fn free_all(rows: &[u32; SHEET], into: &[u16; LIST], kept: &mut [u32; KEPT], z: usize, t: u32)
    ensures { kept.new ≡ over (freed_at rows.now t) kept.old (entries_of into.now z) }
{
    for i in entries(into, z) {
        free(row_at(rows, i), &mut *kept, t);
    }
}

// Every record that bounds another point from z.
fn bound_all(rows: &[u32; SHEET], out: &[u16; LIST], kept: &mut [u32; KEPT], z: usize, t: u32)
    ensures { kept.new ≡ over (bounded_at rows.now t) kept.old (entries_of out.now z) }
{
    for i in entries(out, z) {
        bound(row_at(rows, i), &mut *kept, t);
    }
}

// The point z is done at the minute t by the event of number n: what that changes.
fn mark(
    rows: &[u32; SHEET],
    into: &[u16; LIST],
    out: &[u16; LIST],
    kept: &mut [u32; KEPT],
    z: u8,
    t: u32,
    n: u32,
)
    requires { z < most_points }
    ensures { kept.new ≡ marked_by rows.now into.now out.now t n z kept.old }
{
    let p = z as usize;
    let done = with(kept[DONE], z);
    free_all(rows, into, &mut *kept, p, t);
    bound_all(rows, out, &mut *kept, p, t);
    kept[MINUTES + p] = t;
    kept[CALLS + p] = n;
    kept[DONE] = done;
}

// The running waits of a point.
fn running_of(rows: &[u32; SHEET], out: &[u16; LIST], kept: &[u32; KEPT], v: usize) -> u32
    ensures { result ≡ top_at (running_at rows.now kept.now) (entries_of out.now v) }
{
    let mut top: u32 = 0;
    for i in entries(out, v) {
        top = top.max(run_now(row_at(rows, i), kept));
    }
    top
}

// The running waits of the point that the record i holds, made anew.
fn remake(rows: &[u32; SHEET], out: &[u16; LIST], kept: &mut [u32; KEPT], i: usize)
    requires { i < most_records }
    ensures { kept.new ≡ remade_at rows.now out.now kept.old i }
{
    let row = row_at(rows, i);
    let v = place(row.from) as usize;
    let run = running_of(rows, out, &*kept, v);
    kept[RUNS + v] = run;
}

// A link ends at z: the running waits of each point with a wait on it.
fn remake_all(
    rows: &[u32; SHEET],
    out: &[u16; LIST],
    ends: &[u16; LIST],
    kept: &mut [u32; KEPT],
    z: usize,
)
    ensures { kept.new ≡ over (remade_at rows.now out.now) kept.old (entries_of ends.now z) }
{
    for i in entries(ends, z) {
        remake(rows, out, &mut *kept, i);
    }
}

// The point z is done at the minute t by the event of number n, and where it ends a link, its waits no longer run.
fn do_point(
    rows: &[u32; SHEET],
    into: &[u16; LIST],
    out: &[u16; LIST],
    ends: &[u16; LIST],
    kept: &mut [u32; KEPT],
    z: u8,
    t: u32,
    n: u32,
)
    requires { z < most_points }
    ensures { kept.new ≡ done_by rows.now into.now out.now ends.now t n z kept.old }
{
    mark(rows, into, out, &mut *kept, z, t, n);
    remake_all(rows, out, ends, &mut *kept, z as usize);
}

// The points of a set are done at the minute t by the event of number n.
fn do_set(
    rows: &[u32; SHEET],
    into: &[u16; LIST],
    out: &[u16; LIST],
    ends: &[u16; LIST],
    kept: &mut [u32; KEPT],
    set: u32,
    t: u32,
    n: u32,
)
    ensures { kept.new ≡ all_done_by rows.now into.now out.now ends.now t n (members_of set) kept.old }
{
    for p in members(set) {
        do_point(rows, into, out, ends, &mut *kept, p, t, n);
    }
}

// A foreman's point, if the event has one.
fn do_one(
    rows: &[u32; SHEET],
    into: &[u16; LIST],
    out: &[u16; LIST],
    ends: &[u16; LIST],
    kept: &mut [u32; KEPT],
    p: u8,
    t: u32,
    n: u32,
)
    ensures { kept.new ≡ all_done_by rows.now into.now out.now ends.now t n (points_of p) kept.old }
{
    if p < MOST {
        do_point(rows, into, out, ends, &mut *kept, p, t, n);
    }
}

// All points of an event, which becomes the last.
pub fn do_event(
    rows: &[u32; SHEET],
    into: &[u16; LIST],
    out: &[u16; LIST],
    ends: &[u16; LIST],
    kept: &mut [u32; KEPT],
    e: Event,
)
    ensures { kept.new ≡ event_done_by rows.now into.now out.now ends.now e kept.old }
{
    let n = sum(kept[LAST], 1);
    kept[CLOCK] = e.minute;
    kept[LAST] = n;
    do_set(rows, into, out, ends, &mut *kept, e.set, e.minute, n);
    do_one(rows, into, out, ends, &mut *kept, e.point, e.minute, n);
}
