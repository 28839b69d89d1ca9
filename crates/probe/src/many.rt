// The calls that take many things from the buffer: a list of bounds, which is judged, and a stream of events.
ghost use Rattle.io.specs.Counts.{IsPrefixLen};

use crate::block::{signed, word};
use crate::desk::Desk;
use crate::says::{mixed, say, say_board};
use board::Board;
use bounds::Bound;
use lent::{Judged, LIST_ROOM};
use plan::Plan;
use std::io::Stdout;

const JUDGE: u32 = 23;

const STREAM: u32 = 24;

// A bound's bytes: two points, two bytes that count for nothing, and a signed number.
const BOUND_BYTES: usize = 8;

// The numbers for 3,072 events.
const STREAM_ROOM: usize = 12288;

fn byte_at(bytes: &[u8], at: usize) -> u8 {
    if at < bytes.len() { bytes[at] } else { 0 }
}

fn bound_at(bytes: &[u8], k: u32) -> Bound {
    let at = k as usize * BOUND_BYTES;
    let d = word(
        byte_at(bytes, at + 4),
        byte_at(bytes, at + 5),
        byte_at(bytes, at + 6),
        byte_at(bytes, at + 7),
    );
    Bound {
        from: byte_at(bytes, at),
        to: byte_at(bytes, at + 1),
        bound: signed(d),
    }
}

// The buffer's bytes as bounds; past them all is 0.
fn bounds_in(bytes: &[u8]) -> [Bound; LIST_ROOM] {
    let none = Bound {
        from: 0,
        to: 0,
        bound: 0,
    };
    let mut list = [none; LIST_ROOM];
    for k in 0..LIST_ROOM {
        list[k] = bound_at(bytes, k as u32);
    }
    list
}

fn say_judged(out: Stdout, judged: Judged) {
    match judged {
        Judged::Refused(number, place) => say(out, JUDGE, number, (place % 4294967296) as u32, 0),
        Judged::Kept => say(out, JUDGE, 0, 0, 0),
        Judged::Broken(place) => say(out, JUDGE, 100, (place % 4294967296) as u32, 0),
    }
}

// The verdict over the whole bounds among some bytes, as many as a list by value has room for.
pub fn judge(out: Stdout, plan: Plan, board: Board, bytes: &[u8]) {
    let list = bounds_in(bytes);
    let count = bytes.len() / BOUND_BYTES;
    say_judged(out, lent::judge_list(plan, board, list, count));
}

// So many numbers of a room, or all that it has.
fn numbers_in(n: u32, room: &[u32]) -> usize
    ensures { IsPrefixLen result room.now }
{
    let wanted = n as usize;
    if wanted < room.len() {
        wanted
    } else {
        room.len()
    }
}

fn sum_of_room(room: &[u32]) -> u32 {
    let mut sum: u32 = 0;
    for &x in room {
        sum = mixed(sum, x);
    }
    sum
}

// Takes the events in some bytes, with a room lent for what is said of each. The sum is over the whole room.
fn take_stream(out: Stdout, desk: Desk, events: &[u8], room: &mut [u32]) -> Desk {
    let plan = desk.plan;
    let before = desk.board;
    let taken = before.take_all(plan, events, room);
    let after = taken.board;
    say(out, STREAM, taken.number, taken.place, sum_of_room(room));
    say_board(out, STREAM, after);
    let mut next = desk;
    next.board = after;
    next
}

// A room of so many numbers, each of them x before.
pub fn stream(out: Stdout, desk: Desk, events: &[u8], numbers: u32, x: u32) -> Desk {
    let mut all = [x; STREAM_ROOM];
    let room: &mut [u32] = &mut all;
    let n = numbers_in(numbers, room);
    take_stream(out, desk, events, &mut room[..n])
}
