// A line on its way out.
use handles::{complain, write_all};
use lines::Line;

// Where it goes: what was asked for to standard output, and a refusal to standard error.
#[derive(Clone, Copy)]
pub(crate) enum Out {
    Output,
    Error,
}

pub(crate) fn put(rt: HostRuntime, out: Out, bytes: &[u8]) {
    match out {
        Out::Output => write_all(rt.stdout(), bytes),
        Out::Error => complain(rt.stderr(), bytes),
    };
}

pub(crate) fn say(rt: HostRuntime, out: Out, line: Line) {
    put(rt, out, line.text());
}
