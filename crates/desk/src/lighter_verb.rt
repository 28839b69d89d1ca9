// `desk lighter`: a plan file, and that of the plan without the records that it does not need; on standard error `dropped N` for each
// that went, by its number in the plan as it came in. A refusal goes to standard error, and nothing is written.
use crate::made::write_plan;
use crate::say::{Out, say};
use lighter::{Lighter, lighter_of};
use plan::{MOST_RECORDS, Plan};

// A line for each record that went.
fn say_dropped(rt: HostRuntime, made: Lighter) {
    let count = made.count as usize;
    let dropped = made.dropped;
    for i in 0..MOST_RECORDS {
        if i < count {
            say(rt, Out::Error, answers::dropped_line(dropped[i]));
        }
    }
}

// A frame of its own: rooms for plans are not kept while another verb runs.
#[inline(never)]
pub(crate) fn write_lighter(rt: HostRuntime, plan: Plan) {
    match lighter_of(plan) {
        Err(refusal) => say(rt, Out::Error, answers::lighter_refused(refusal.number)),
        Ok(made) => {
            write_plan(rt, made.plan);
            say_dropped(rt, made)
        }
    }
}
