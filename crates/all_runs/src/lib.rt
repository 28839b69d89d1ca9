// The runs of a plan's projections, on the plan laid out in rows: the worst of all, and the events of one as a day in a lent buffer. An
// inner room: it serves `worst`, and asks that the rows are those of a plan that passes.

#![tactic(auto)]

ghost use Rattle.std.specs.Prelude.{◌≡◌, ◌++◌, ◌*◌, ◌≤◌, Ok, Err, ltb, length, take, drop, if◌then◌else◌};
ghost use Rattle.plan.specs.Limits.{most_points, record_bytes};
ghost use Rattle.plan.specs.ReplyNumbers.{refusal};
ghost use Rattle.all_runs.specs.Coded.{DayAsks, DayAs, WorstAsks, worse_found, FoundOf};

use choices::chosen;
use kept::KEPT;
use neighbours::LIST;
use plan::{NO_ROOM, Refusal};
use projection_runs::{LOG, run};
use records::RECORD_BYTES;
use rows::SHEET;
use steps::begin_rooms;
use tables::SIDE;

// A finishing minute, and the projection that has it.
#[derive(Clone, Copy)]
pub struct Found {
    pub minute: u32,
    pub projection: u32,
}

// The worse of what is found so far and a minute t of projection i: of equal minutes the first counts.
fn worse(found: Found, t: u32, i: u32) -> Found
    ensures { result ≡ worse_found found t i }
{
    if found.minute < t {
        Found {
            minute: t,
            projection: i,
        }
    } else {
        found
    }
}

// The worst of all projections' runs.
pub fn worst_run(sheet: &[u32; SHEET], m: usize, n: u32, links: usize, many: u32) -> Found
    requires { WorstAsks sheet.now m n links many }
    ensures { FoundOf sheet.now m n links many result }
{
    let mut into = [0u16; LIST];
    let mut out = [0u16; LIST];
    let mut ends = [0u16; LIST];
    let mut begun = [0u32; KEPT];
    let starts = begin_rooms(sheet, m, &mut into, &mut out, &mut ends, &mut begun);
    let mut log = [0u8; LOG];
    let mut found = Found {
        minute: 0,
        projection: 0,
    };
    let past = n as usize + links;
    for i in 0..many {
        let w = chosen(sheet, past, links, many, i);
        let ran = run(sheet, &into, &out, &ends, begun, &starts, n, &w, &mut log);
        found = worse(found, ran.minute, i);
    }
    found
}

// The first events of a log into the front of the buffer, or 12 where it is too short for them.
fn put_events(log: &[u8], events: u32, buffer: &mut [u8]) -> Result<u32, Refusal>
    requires { (events ≤ most_points) × (record_bytes * events ≤ length log.now) }
    ensures reply { result ≡ (if ltb (length buffer.old) (record_bytes * events) then Err (refusal 12 0) else Ok events) }
    ensures buffer { buffer.new ≡ (if ltb (length buffer.old) (record_bytes * events) then buffer.old else take (record_bytes * events) log.now ++ drop (record_bytes * events) buffer.old) }
{
    let n = RECORD_BYTES * events as usize;
    if buffer.len() < n {
        return Err(Refusal {
            number: NO_ROOM,
            place: 0,
        });
    }
    buffer[..n].copy_from_slice(&log[..n]);
    Ok(events)
}

// The events of a run into the front of the buffer, or 12 where it is too short for them.
pub fn write_day(
    sheet: &[u32; SHEET],
    m: usize,
    n: u32,
    durations: &[u64; SIDE],
    buffer: &mut [u8],
) -> Result<u32, Refusal>
    requires { DayAsks sheet.now m n durations.now }
    ensures { DayAs sheet.now m n durations.now buffer.old buffer.new result }
{
    let mut into = [0u16; LIST];
    let mut out = [0u16; LIST];
    let mut ends = [0u16; LIST];
    let mut begun = [0u32; KEPT];
    let starts = begin_rooms(sheet, m, &mut into, &mut out, &mut ends, &mut begun);
    let mut log = [0u8; LOG];
    let ran = run(
        sheet, &into, &out, &ends, begun, &starts, n, durations, &mut log,
    );
    put_events(&log, ran.events, buffer)
}
