// `desk test`: the plan test's answer to a plan.
use crate::say::{Out, say};
use plan::Plan;

pub(crate) fn tell(rt: HostRuntime, plan: Plan) {
    say(rt, Out::Output, text::test_line(vee::test(plan)))
}
