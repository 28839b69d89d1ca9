// `desk day N`: a plan file, and that file, the mark and the events of projection N's run: what `sheet` and `offers` read. A refusal goes
// to standard error, and nothing is written.
use crate::say::{Out, put, say};
use plan::{MOST_POINTS, Plan, RECORD_BYTES};
use stream::within;

// A run has at most as many events as there are points.
const ROOM: usize = RECORD_BYTES * MOST_POINTS as usize;

// The record that ends a plan.
const MARK: [u8; RECORD_BYTES] = [255; RECORD_BYTES];

// The plan file, which is so many bytes at the front, then the mark and the day.
pub(crate) fn write_day(rt: HostRuntime, plan: Plan, front: &[u8], length: u64, projection: u32) {
    let mut room = [0u8; ROOM];
    let events = match worst::day_of(plan, projection, &mut room) {
        Ok(events) => events,
        Err(refusal) => return say(rt, Out::Error, answers::day_refused(refusal.number)),
    };
    let n = within(length as usize, front);
    put(rt, Out::Output, &front[..n]);
    put(rt, Out::Output, &MARK);
    let m = within(RECORD_BYTES * (events as usize), &room);
    put(rt, Out::Output, &room[..m]);
}
