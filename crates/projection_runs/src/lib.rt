// The run of a projection, on a plan laid out in rows, from what is kept of its board: its finishing minute, how many events it has,
// and the events' bytes in a lent log. An inner room: it serves `all_runs`, and asks that the rows are those of a plan that passes, so that
// the run finishes.

#![tactic(auto)]

ghost use Rattle.std.specs.Prelude.{◌≡◌};
ghost use Rattle.promise.specs.Plays.{event_bytes};
ghost use Rattle.projection_runs.specs.Coded.{as_played, lent, RunAsks, RanOf};

use events::Event;
use history::first_points;
use kept::{DONE, KEPT, do_event};
use neighbours::LIST;
use records::{RECORD_BYTES, put};
use rows::SHEET;
use steps::next_event;
use tables::SIDE;

// Room for the events of a run: one for each point.
pub const LOG: usize = RECORD_BYTES * SIDE;

// The minute of a run's last event, which is the clock of the board on which it ends, and how many events lead there.
#[derive(Clone, Copy)]
pub struct Ran {
    pub minute: u32,
    pub events: u32,
}

// The sixteen bytes of an event.
fn event_bytes(e: Event) -> [u8; RECORD_BYTES]
    ensures { result ≡ event_bytes (as_played e) }
{
    let t = e.minute;
    let s = e.set;
    [
        (t % 256) as u8,
        (t / 256 % 256) as u8,
        (t / 256 / 256 % 256) as u8,
        (t / 256 / 256 / 256 % 256) as u8,
        e.point,
        0,
        0,
        0,
        (s % 256) as u8,
        (s / 256 % 256) as u8,
        (s / 256 / 256 % 256) as u8,
        (s / 256 / 256 / 256 % 256) as u8,
        0,
        0,
        0,
        0,
    ]
}

pub fn run(
    sheet: &[u32; SHEET],
    into: &[u16; LIST],
    out: &[u16; LIST],
    ends: &[u16; LIST],
    begun: [u32; KEPT],
    starts: &[u8; SIDE],
    n: u32,
    durations: &[u64; SIDE],
    log: &mut [u8],
) -> Ran
    requires { RunAsks (lent sheet.now into.now out.now ends.now begun starts.now) n durations.now log.old }
    ensures { RanOf (lent sheet.now into.now out.now ends.now begun starts.now) n durations.now log.old log.new result }
{
    let all = first_points(n);
    let mut kept = begun;
    let mut minute: u32 = 0;
    let mut k: usize = 0;
    // It goes on until all points are done: no index is counted.
    while kept[DONE] != all {
        let e = next_event(&kept, starts, n, durations);
        minute = e.minute;
        put(log, RECORD_BYTES * k, event_bytes(e));
        do_event(sheet, into, out, ends, &mut kept, e);
        k += 1;
    }
    Ran {
        minute,
        events: k as u32,
    }
}
