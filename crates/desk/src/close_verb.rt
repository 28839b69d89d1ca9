// `desk close`: the file of a plan without watched steps, and that of the plan with every distance as a record. A refusal goes to
// standard error, and nothing is written.
use crate::made::write_plan;
use crate::say::{Out, say};
use closure::close;
use plan::Plan;

// A frame of its own: rooms for plans are not kept while another verb runs.
#[inline(never)]
pub(crate) fn write_closed(rt: HostRuntime, plan: Plan) {
    match close(plan) {
        Ok(made) => write_plan(rt, made),
        Err(refusal) => say(rt, Out::Error, answers::close_refused(refusal.number)),
    }
}
