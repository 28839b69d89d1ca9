// `desk import`: comma-separated text from the growers' office, and the plan file that it says. A refusal goes to standard error with
// its line, and nothing is written. The text is fed to the importer a piece at a time, so it may be of any length.
use crate::input::piece_room;
use crate::made::write_plan;
use crate::say::{Out, say};
use handles::read_full;
use office::{Feeding, Refused, begin, feed, finish};
use plan::Plan;
use std::io::Stdin;

// What is known after all of the input.
fn fed(input: Stdin, room: &mut [u8]) -> Feeding {
    let mut state = begin();
    for _ in 0..u64::MAX {
        let n = read_full(input, room);
        state = feed(state, &room[..n]);
        if n < room.len() {
            break;
        }
    }
    state
}

fn imported(input: Stdin) -> Result<Plan, Refused> {
    let mut room = piece_room();
    finish(fed(input, &mut room))
}

pub(crate) fn run(rt: HostRuntime) {
    match imported(rt.stdin()) {
        Ok(plan) => write_plan(rt, plan),
        Err(refused) => {
            let line = answers::import_refused(refused.number, refused.line as u64);
            say(rt, Out::Error, line)
        }
    }
}
