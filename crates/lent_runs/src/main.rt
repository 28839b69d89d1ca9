// Runs of the verdict over a lent list, on the haul of document 01, which is read from standard input: 0 done at 0, 1 at
// 12, 2 and 3 at 47, in one event. A line for each answer: R number place, K, or B place.

#![tactic(auto)]

use board::Board;
use bounds::Bound;
use handles::{read_full, write_all};
use lent::{Judged, LIST_ROOM, judge_list};
use plan::{Plan, plan_in};
use plan_file::read;
use std::io::Stdout;

fn digit(x: usize) -> u8 {
    b'0' + (x % 10) as u8
}

fn line(out: Stdout, kind: u8, number: u32, place: usize) {
    let n = number as usize;
    let text = [
        kind,
        b' ',
        digit(n / 10),
        digit(n),
        b' ',
        digit(place / 1000),
        digit(place / 100),
        digit(place / 10),
        digit(place),
        b'\n',
    ];
    write_all(out, &text);
}

fn show(out: Stdout, judged: Judged) {
    match judged {
        Judged::Refused(number, place) => line(out, b'R', number, place),
        Judged::Kept => line(out, b'K', 0, 0),
        Judged::Broken(place) => line(out, b'B', 0, place),
    }
}

// Points 0 to 2 as above, and the minute and the event number of point 3.
fn board(done: u32, last: u32, call: u32) -> Board {
    let mut minutes = [0u32; 32];
    minutes[1] = 12;
    minutes[2] = 47;
    minutes[3] = last;
    let mut calls = [0u32; 32];
    calls[0] = 1;
    calls[1] = 2;
    calls[2] = 3;
    calls[3] = call;
    Board {
        clock: 47,
        done,
        minutes,
        calls,
    }
}

fn bound(from: u8, to: u8, bound: i32) -> Bound {
    Bound { from, to, bound }
}

// The first `count` of a list that holds the same bound in each place but one.
fn run(
    out: Stdout,
    plan: Plan,
    board: Board,
    each: Bound,
    place: usize,
    other: Bound,
    count: usize,
) {
    let mut list = [each; LIST_ROOM];
    if place < LIST_ROOM {
        list[place] = other;
    }
    show(out, judge_list(plan, board, list, count));
}

// One bound on the finished board.
fn one(out: Stdout, plan: Plan, from: u8, to: u8, most: i32) {
    let b = bound(from, to, most);
    run(out, plan, board(15, 47, 3), b, 0, b, 1);
}

// Point 1 comes 12 after point 0: kept at 12, broken at 11; the lowest and the highest bound.
fn numbers(out: Stdout, plan: Plan) {
    one(out, plan, 0, 1, 12);
    one(out, plan, 0, 1, 11);
    one(out, plan, 1, 0, -12);
    one(out, plan, 1, 0, -13);
    one(out, plan, 0, 1, 2147483647);
    one(out, plan, 3, 0, -2147483648);
}

// Point 3 is the plan's last.
fn points(out: Stdout, plan: Plan) {
    one(out, plan, 3, 3, 0);
    one(out, plan, 4, 3, 0);
    one(out, plan, 3, 4, 0);
    one(out, plan, 255, 0, 0);
    one(out, plan, 0, 255, 0);
}

// None of the list counts; thousands do; the last is broken; the last is broken and not counted; more than there are.
fn lengths(out: Stdout, plan: Plan) {
    let kept = bound(0, 1, 12);
    let broken = bound(0, 1, 11);
    let done = board(15, 47, 3);
    run(out, plan, done, broken, 0, broken, 0);
    run(out, plan, done, kept, 0, kept, 4096);
    run(out, plan, done, kept, 4095, broken, 4096);
    run(out, plan, done, kept, 4095, broken, 4095);
    run(out, plan, done, kept, 4095, broken, 5000);
}

// A point that is not in the plan comes before every broken bound, and 31, 20 and the plan's own number before it.
fn order(out: Stdout, plan: Plan, empty: Plan) {
    let broken = bound(0, 1, 11);
    let unnamed = bound(0, 4, 0);
    let done = board(15, 47, 3);
    let unsound = board(7, 47, 0);
    run(out, plan, done, broken, 4000, unnamed, 4000);
    run(out, plan, done, broken, 4000, unnamed, 4096);
    run(out, plan, board(7, 0, 0), broken, 0, unnamed, 4096);
    run(out, plan, unsound, broken, 0, unnamed, 4096);
    run(out, empty, unsound, broken, 0, unnamed, 4096);
}

fn main(rt: HostRuntime) {
    let out = rt.stdout();
    let mut bytes = [0u8; 144];
    let n = read_full(rt.stdin(), &mut bytes);
    let plan = plan_in(read(&bytes[..n]));
    let empty = plan_in(read(&bytes[..0]));
    numbers(out, plan);
    points(out, plan);
    lengths(out, plan);
    order(out, plan, empty);
}
