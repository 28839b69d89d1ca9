// Answers as lines of four numbers, and sums that stand for many bytes.
ghost use Rattle.io.specs.Counts.{IsPrefixLen};

use crate::block::wide;
use board::{Board, ROOM};
use handles::write_all;
use plan::{MOST_RECORDS, Plan, Record, split};
use replies::{Place, State};
use std::io::Stdout;

// So many bytes of a buffer, or all that it has.
pub fn within(n: usize, bytes: &[u8]) -> usize
    ensures { IsPrefixLen result bytes.now }
{
    if n < bytes.len() { n } else { bytes.len() }
}

// A line of four numbers.
pub fn say(out: Stdout, a: u32, b: u32, c: u32, d: u32) {
    let line = text::numbers_line(a as u64, b, c, d);
    write_all(out, line.text());
}

const PRIME: u32 = 16777213;

// The sum with a number more.
pub fn mixed(sum: u32, x: u32) -> u32 {
    let next = (sum % PRIME) as u64 * 251 + (x as u64) + 1;
    (next % (PRIME as u64)) as u32
}

// The sum over a buffer's bytes.
pub fn sum_of(bytes: &[u8]) -> u32 {
    let mut sum: u32 = 0;
    for &b in bytes {
        sum = mixed(sum, wide(b));
    }
    sum
}

fn with_record(sum: u32, r: Record) -> u32 {
    let s = mixed(mixed(mixed(sum, r.kind as u32), r.a as u32), r.b as u32);
    let x = split(r.first);
    let y = split(r.second);
    let t = mixed(mixed(mixed(mixed(s, x.up), x.down), y.up), y.down);
    mixed(t, r.code)
}

// The sum over all records of a plan, those past its count too.
pub fn sum_of_plan(plan: Plan) -> u32 {
    let mut sum = plan.count;
    for r in plan.records {
        sum = with_record(sum, r);
    }
    sum
}

// A point's place in a reply: its number, and what it is.
fn say_place(out: Stdout, p: u32, state: State) {
    match state {
        State::Done(minute) => say(out, p, 1, minute, 0),
        State::Watched => say(out, p, 2, 0, 0),
        State::Shut(n) => say(out, p, 3, n, 0),
        State::Held => say(out, p, 4, 0, 0),
        State::Offered(low) => say(out, p, 5, low, 0),
    }
}

// All places of a reply, those past the plan's last point too.
pub fn say_places(out: Stdout, places: [Place; ROOM]) {
    for i in 0..ROOM {
        let place = places[i];
        let state = place.state;
        say_place(out, i as u32, state);
    }
}

// All minutes of a board, or all event numbers, four to a line.
fn say_minutes(out: Stdout, minutes: [u32; ROOM]) {
    for k in 0..ROOM / 4 {
        say(
            out,
            minutes[4 * k],
            minutes[4 * k + 1],
            minutes[4 * k + 2],
            minutes[4 * k + 3],
        );
    }
}

// A board: its clock and its done set, its minutes, and its event numbers.
pub fn say_board(out: Stdout, asked: u32, board: Board) {
    say(out, asked, board.clock, board.done, 0);
    let minutes = board.minutes;
    say_minutes(out, minutes);
    let calls = board.calls;
    say_minutes(out, calls);
}
