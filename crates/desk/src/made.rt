// A plan that was made, on its way out as a file.
use crate::say::{Out, put};
use plan::{MOST_RECORDS, Plan, RECORD_BYTES};
use stream::within;

// The longest file.
const ROOM: usize = RECORD_BYTES * MOST_RECORDS;

pub(crate) fn write_plan(rt: HostRuntime, plan: Plan) {
    let mut room = [0u8; ROOM];
    plan_file::write(plan, &mut room);
    let n = within(RECORD_BYTES * (plan.count as usize), &room);
    put(rt, Out::Output, &room[..n]);
}
