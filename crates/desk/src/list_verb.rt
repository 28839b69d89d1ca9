// `desk list`: a plan file, and its records as the lines of a listing, which `desk pack` packs to the same file. A refusal goes to
// standard error, and nothing is written.
use crate::say::{Out, say};
use listed::record_line;
use plan::{MOST_RECORDS, Plan};

// A line for each record.
pub(crate) fn say_records(rt: HostRuntime, plan: Plan) {
    let count = plan.count as usize;
    let records = plan.records;
    for i in 0..MOST_RECORDS {
        if i < count {
            say(rt, Out::Output, record_line(records[i]));
        }
    }
}
