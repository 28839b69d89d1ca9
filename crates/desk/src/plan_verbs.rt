// The verbs that take a plan file. It is read in one place for all of them; a refused one is told where the verb tells its refusals. Two verbs
// each have a function, which is called in two places: so the compiler makes a frame for the two, and not one for all.
use crate::close_verb::write_closed;
use crate::day_verb::write_day;
use crate::input::{plan_room, read_all};
use crate::lighter_verb::write_lighter;
use crate::list_verb::say_records;
use crate::say::{Out, say};
use crate::{explain_verb, test_verb, worst_verb};
use asks::Asked;
use plan::Plan;
use stream::read_front;

// What the plan test says.
fn tested(rt: HostRuntime, ask: Asked, plan: Plan) {
    if let Asked::Test = ask {
        return test_verb::tell(rt, plan);
    }
    explain_verb::tell(rt, plan)
}

// What the runs of all projections say, or the day of one of them.
fn played(rt: HostRuntime, ask: Asked, plan: Plan, front: &[u8], length: u64) {
    if let Asked::Day(projection) = ask {
        return write_day(rt, plan, front, length, projection);
    }
    worst_verb::tell(rt, plan)
}

// A plan that is made of it.
fn remade(rt: HostRuntime, ask: Asked, plan: Plan) {
    if let Asked::Close = ask {
        return write_closed(rt, plan);
    }
    write_lighter(rt, plan)
}

// What is asked of a plan, whose file is so many bytes at the front. The other verbs take no plan file.
fn told(rt: HostRuntime, ask: Asked, plan: Plan, front: &[u8], length: u64) {
    match ask {
        Asked::Test => tested(rt, ask, plan),
        Asked::Explain => tested(rt, ask, plan),
        Asked::Worst => played(rt, ask, plan, front, length),
        Asked::Day(_) => played(rt, ask, plan, front, length),
        Asked::Close => remade(rt, ask, plan),
        Asked::Lighter => remade(rt, ask, plan),
        Asked::Listing => say_records(rt, plan),
        Asked::Import => {}
        Asked::Pack => {}
        Asked::Calendar => {}
        Asked::Nothing => {}
    }
}

pub(crate) fn run(rt: HostRuntime, ask: Asked, refusals: Out) {
    let mut room = plan_room();
    let front: &mut [u8] = &mut room;
    let length = read_all(rt.stdin(), front);
    match read_front(length, front) {
        Ok(plan) => told(rt, ask, plan, front, length),
        Err(refusal) => say(rt, refusals, text::plan_line(refusal.number, refusal.place)),
    }
}
