// The calls: each is made so many times with another pond code in the plan's first record, for the benchmark, and then once
// as the desk stands, which is answered. The number in front of an answer's first line is the request's own.
use crate::block::{Asked, Block};
use crate::desk::{Desk, set_byte};
use crate::many;
use crate::says::{mixed, say, say_board, say_places, sum_of, sum_of_plan, within};
use board::{Board, Taken};
use plan::{Plan, plan_in};
use replies::Outcome;
use std::io::Stdout;
use vee::Answer;
use verdict::Verdict;

const REPLY: u32 = 16;

const TAKE: u32 = 17;

const VERDICT: u32 = 18;

const CHECK: u32 = 19;

const WRITE: u32 = 20;

const TEST: u32 = 21;

const READ: u32 = 22;

// The plan with another pond code in its first record.
fn coded(plan: Plan, code: u32) -> Plan {
    let mut other = plan;
    let mut r = other.records[0];
    r.code = code;
    other.records[0] = r;
    other
}

fn replies(plan: Plan, board: Board, times: u32) -> u32 {
    let mut sum: u32 = 0;
    for k in 0..times {
        let reply = replies::reply_of(coded(plan, k), board);
        sum = mixed(sum, reply.latest);
    }
    sum
}

fn say_reply(out: Stdout, plan: Plan, board: Board, sum: u32) {
    let reply = replies::reply_of(plan, board);
    let outcome = reply.outcome;
    let places = reply.places;
    match outcome {
        Outcome::Refused(number, place) => say(out, REPLY, number, place, sum),
        Outcome::Finished => say(out, REPLY, 101, reply.latest, sum),
        Outcome::Stuck => say(out, REPLY, 102, reply.latest, sum),
        Outcome::Waiting => say(out, REPLY, 103, reply.latest, sum),
        Outcome::Offers => say(out, REPLY, 104, reply.latest, sum),
    }
    say_places(out, places);
}

fn takes(plan: Plan, board: Board, event: &[u8], times: u32) -> u32 {
    let mut sum: u32 = 0;
    for k in 0..times {
        let taken = board.take(coded(plan, k), event);
        let after = taken.board;
        sum = mixed(sum, after.clock);
    }
    sum
}

fn take(out: Stdout, desk: Desk, event: &[u8]) -> Desk {
    let plan = desk.plan;
    let before = desk.board;
    let sum = takes(plan, before, event, desk.times);
    let taken = before.take(plan, event);
    let after = taken.board;
    say(out, TAKE, taken.number, taken.place, sum);
    say_board(out, TAKE, after);
    let mut next = desk;
    next.board = after;
    next
}

fn verdict_number(verdict: Verdict) -> u32 {
    match verdict {
        Verdict::Refused(number, _) => number,
        Verdict::Kept => 0,
        Verdict::Broken(place) => place,
    }
}

fn verdicts(plan: Plan, board: Board, times: u32) -> u32 {
    let mut sum: u32 = 0;
    for k in 0..times {
        sum = mixed(
            sum,
            verdict_number(verdict::verdict_of(coded(plan, k), board)),
        );
    }
    sum
}

fn say_verdict(out: Stdout, plan: Plan, board: Board, sum: u32) {
    match verdict::verdict_of(plan, board) {
        Verdict::Refused(number, place) => say(out, VERDICT, number, place, sum),
        Verdict::Kept => say(out, VERDICT, 0, 0, sum),
        Verdict::Broken(place) => say(out, VERDICT, 100, place, sum),
    }
}

fn say_check(out: Stdout, plan: Plan) {
    let found = plan::check(plan);
    say(out, CHECK, found.number, found.place, 0);
}

fn say_write(out: Stdout, plan: Plan, room: &mut [u8]) {
    let found = plan_file::write(plan, room);
    say(out, WRITE, found.number, found.place, sum_of(room));
}

fn say_test(out: Stdout, plan: Plan) {
    match vee::test(plan) {
        Answer::Refused(number, place) => say(out, TEST, number, place, 0),
        Answer::Yes(tried) => say(out, TEST, 101, tried, 0),
        Answer::Cycle(at) => say(out, TEST, 102, at, 0),
        Answer::Pair(at, x, y) => {
            say(out, TEST, 103, at, 0);
            say(out, TEST, x, y, 0)
        }
    }
}

// Byte 12, where the first record's pond code starts, is another one each time.
fn reads(bytes: &mut [u8], times: u32) -> u32 {
    let mut sum: u32 = 0;
    for k in 0..times {
        set_byte(bytes, 12, (k % 256) as u8);
        let plan = plan_in(plan_file::read(bytes));
        sum = mixed(sum, plan.count);
    }
    sum
}

fn say_read(out: Stdout, bytes: &mut [u8], times: u32) {
    let sum = reads(bytes, times);
    let reading = plan_file::read(bytes);
    match reading {
        Ok(_) => say(out, READ, 0, 0, sum),
        Err(refusal) => say(out, READ, refusal.number, refusal.place, sum),
    }
    let plan = plan_in(reading);
    say(out, READ, plan.count, sum_of_plan(plan), 0);
}

// A call by its number; any other number is answered with itself.
pub fn called(out: Stdout, desk: Desk, block: Block, buffer: &mut [u8]) -> Desk {
    let plan = desk.plan;
    let board = desk.board;
    let times = desk.times;
    let n = within(desk.length, buffer);
    match block.asked {
        Asked::Reply => say_reply(out, plan, board, replies(plan, board, times)),
        Asked::Take => {
            return take(out, desk, &buffer[..n]);
        }
        Asked::Verdict => say_verdict(out, plan, board, verdicts(plan, board, times)),
        Asked::Check => say_check(out, plan),
        Asked::Write => say_write(out, plan, &mut buffer[..n]),
        Asked::Test => say_test(out, plan),
        Asked::Read => say_read(out, &mut buffer[..n], times),
        Asked::Judge => many::judge(out, plan, board, &buffer[..n]),
        Asked::Stream => {
            return many::stream(out, desk, &buffer[..n], block.first, block.second);
        }
        Asked::Other(byte) => say(out, byte as u32, 0, 0, 0),
        _ => {}
    }
    desk
}
