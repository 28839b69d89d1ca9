// `desk worst`: the worst finishing minute of a plan and the first projection that reaches it, or its refusal.
use crate::say::{Out, say};
use plan::Plan;

pub(crate) fn tell(rt: HostRuntime, plan: Plan) {
    say(rt, Out::Output, answers::worst_line(worst::worst_of(plan)))
}
