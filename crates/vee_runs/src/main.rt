// Runs of the plan test: the plan files of standard input, one after the other, and a line for the answer to each: R number place, Y projections, C projection, or P projection X Y.

#![tactic(auto)]

use handles::{read_full, write_all};
use plan::plan_in;
use plan_file::read;
use std::io::Stdout;
use vee::{Answer, test};

fn digit(x: u32) -> u8 {
    b'0' + (x % 10) as u8
}

fn line(out: Stdout, kind: u8, a: u32, b: u32, c: u32) {
    let text = [
        kind,
        b' ',
        digit(a / 1000),
        digit(a / 100),
        digit(a / 10),
        digit(a),
        b' ',
        digit(b / 100),
        digit(b / 10),
        digit(b),
        b' ',
        digit(c / 10),
        digit(c),
        b'\n',
    ];
    write_all(out, &text);
}

fn show(out: Stdout, answer: Answer) {
    match answer {
        Answer::Refused(number, place) => line(out, b'R', number, place, 0),
        Answer::Yes(tried) => line(out, b'Y', tried, 0, 0),
        Answer::Cycle(at) => line(out, b'C', at, 0, 0),
        Answer::Pair(at, x, y) => line(out, b'P', at, x, y),
    }
}

fn answer(out: Stdout, bytes: &[u8]) {
    show(out, test(plan_in(read(bytes))));
}

// Worked case 1.
fn haul(rt: HostRuntime) {
    let mut bytes = [0u8; 144];
    let n = read_full(rt.stdin(), &mut bytes);
    answer(rt.stdout(), &bytes[..n]);
}

// Worked case 2.
fn haul_without_wait(rt: HostRuntime) {
    let mut bytes = [0u8; 128];
    let n = read_full(rt.stdin(), &mut bytes);
    answer(rt.stdout(), &bytes[..n]);
}

// Worked case 3.
fn haul_with_wait_34(rt: HostRuntime) {
    let mut bytes = [0u8; 144];
    let n = read_full(rt.stdin(), &mut bytes);
    answer(rt.stdout(), &bytes[..n]);
}

// Worked case 10.
fn two_negative(rt: HostRuntime) {
    let mut bytes = [0u8; 64];
    let n = read_full(rt.stdin(), &mut bytes);
    answer(rt.stdout(), &bytes[..n]);
}

// 4,096 projections.
fn at_4096(rt: HostRuntime) {
    let mut bytes = [0u8; 80];
    let n = read_full(rt.stdin(), &mut bytes);
    answer(rt.stdout(), &bytes[..n]);
}

// 4,097 projections.
fn past_4096(rt: HostRuntime) {
    let mut bytes = [0u8; 48];
    let n = read_full(rt.stdin(), &mut bytes);
    answer(rt.stdout(), &bytes[..n]);
}

// No links: one projection.
fn no_links(rt: HostRuntime) {
    let mut bytes = [0u8; 48];
    let n = read_full(rt.stdin(), &mut bytes);
    answer(rt.stdout(), &bytes[..n]);
}

// 32 points and 256 ordinary records.
fn full(rt: HostRuntime) {
    let mut bytes = [0u8; 4608];
    let n = read_full(rt.stdin(), &mut bytes);
    answer(rt.stdout(), &bytes[..n]);
}

// A plan that fails only inside its bounds: both the shortest and the longest duration pass.
fn inside(rt: HostRuntime) {
    let mut bytes = [0u8; 192];
    let n = read_full(rt.stdin(), &mut bytes);
    answer(rt.stdout(), &bytes[..n]);
}

// 32 points, 8 links, an ordinary record for each of their 992 ordered pairs and 64 waits, at 4,096 projections: no plan is larger.
fn largest(rt: HostRuntime) {
    let mut bytes = [0u8; 17536];
    let n = read_full(rt.stdin(), &mut bytes);
    answer(rt.stdout(), &bytes[..n]);
}

// The same plan with the waits of one point a minute shorter: it fails at projection 3,968.
fn largest_too_short(rt: HostRuntime) {
    let mut bytes = [0u8; 17536];
    let n = read_full(rt.stdin(), &mut bytes);
    answer(rt.stdout(), &bytes[..n]);
}

fn main(rt: HostRuntime) {
    haul(rt);
    haul_without_wait(rt);
    haul_with_wait_34(rt);
    two_negative(rt);
    at_4096(rt);
    past_4096(rt);
    no_links(rt);
    full(rt);
    inside(rt);
    largest(rt);
    largest_too_short(rt);
}
