// `desk explain`: a plan file, and the plan test's answer to it; where that is no, the drives of the projection that fails, for a pair the
// shortest length and the best that the windows can follow, and the steps of a shortest way or of a cycle with their sum.
use crate::say::{Out, say};
use explained::{Drives, LINKS, Why, explain_of};
use plan::Plan;
use reasons::{allowed_line, drive_line, shortest_line, step_line, sum_line};
use ways::{MOST_STEPS, Way};

// A line for each drive.
fn say_drives(rt: HostRuntime, drives: Drives) {
    let count = drives.count;
    let list = drives.list;
    for i in 0..LINKS {
        if i < count {
            say(rt, Out::Output, drive_line(list[i]));
        }
    }
}

// A line for each step.
fn say_steps(rt: HostRuntime, way: Way) {
    let count = way.count;
    let steps = way.steps;
    for i in 0..MOST_STEPS {
        if i < count {
            say(rt, Out::Output, step_line(steps[i]));
        }
    }
}

// The lines of a no.
fn say_why(rt: HostRuntime, why: Why) {
    say_drives(rt, why.drives);
    if why.shortest.is_some() {
        say(rt, Out::Output, shortest_line(why.shortest));
        say(rt, Out::Output, allowed_line(why.allowed));
    }
    say_steps(rt, why.way);
    say(rt, Out::Output, sum_line(why.sum));
}

pub(crate) fn tell(rt: HostRuntime, plan: Plan) {
    let told = explain_of(plan);
    let answer = told.answer;
    say(rt, Out::Output, text::test_line(answer));
    if told.why.sum.is_some() {
        say_why(rt, told.why);
    }
}
