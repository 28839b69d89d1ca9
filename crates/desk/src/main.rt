// One program for the desk: `desk VERB [WORDS]`, standard input to standard output. Each verb is a file here that calls
// one proved function and prints proved lines; what reads and writes no contract can say. Memory does not grow with the input. Verbs that take a
// plan file are called in `plan_verbs`, the others in `text_verbs`, each of which is called in several places, so that the compiler
// does not make one frame of all of them.
#![tactic(auto)]

ghost use Rattle.io.specs.Counts.{IsPrefixLen};

mod calendar_verb;
mod close_verb;
mod day_verb;
mod explain_verb;
mod import_verb;
mod input;
mod lighter_verb;
mod list_verb;
mod made;
mod pack_verb;
mod plan_verbs;
mod say;
mod sheet_in;
mod test_verb;
mod text_verbs;
mod worst_verb;

use asks::Asked;
use handles::complain;
use say::Out;
use std::env::{Env, FillError};

// The verbs and their words.
const USAGE: [u8; 127] =
    *b"usage: desk test | explain | worst | day NUMBER | import | pack | list | close | lighter | calendar YEAR MONTH DAY HOUR MINUTE
";

// Word i behind the program's name, at the front of the room, and its length; 0 where there is none, or it is longer than the room.
pub(crate) fn argument(rt: HostRuntime, i: usize, room: &mut [u8]) -> usize
    ensures { IsPrefixLen result room.new }
{
    match rt.arg(i, room) {
        Ok(n) => n,
        Err(_) => 0,
    }
}

// How many words there are, the program's name among them.
fn argument_count(rt: HostRuntime) -> usize {
    let mut room = [0u8; 1];
    for i in 0..usize::MAX {
        if let Err(FillError::NotPresent) = rt.arg(i, &mut room) {
            return i;
        }
    }
    usize::MAX
}

// The first two words behind the program's name: a verb, and what it is asked.
fn asked(rt: HostRuntime) -> Asked {
    let mut verb = io::buffer();
    let n = argument(rt, 1, &mut verb);
    let mut word = io::buffer();
    let m = argument(rt, 2, &mut word);
    asks::ask(argument_count(rt), &verb[..n], &word[..m])
}

// What is said of a verb or words that are none.
pub(crate) fn usage(rt: HostRuntime) {
    complain(rt.stderr(), &USAGE);
}

fn main(rt: HostRuntime) {
    let ask = asked(rt);
    match ask {
        Asked::Test => plan_verbs::run(rt, ask, Out::Output),
        Asked::Explain => plan_verbs::run(rt, ask, Out::Output),
        Asked::Worst => plan_verbs::run(rt, ask, Out::Output),
        Asked::Day(_) => plan_verbs::run(rt, ask, Out::Error),
        Asked::Listing => plan_verbs::run(rt, ask, Out::Error),
        Asked::Close => plan_verbs::run(rt, ask, Out::Error),
        Asked::Lighter => plan_verbs::run(rt, ask, Out::Error),
        Asked::Import => text_verbs::run(rt, text_verbs::IMPORT),
        Asked::Pack => text_verbs::run(rt, text_verbs::PACK),
        Asked::Calendar => text_verbs::run(rt, text_verbs::CALENDAR),
        Asked::Nothing => usage(rt),
    }
}
