// The printing program of document 01, and the longer print of every reply, over one stream: standard input is a plan file,
// a record of sixteen bytes 255, and event records. What is made of it is `turn`'s, with an exact contract on the rooms that are lent to
// it here. Here is what reads and writes, which no contract can say: one loop of a read, a turn and a write. After each read all whole
// records that have come are answered, and their lines go out before the next read, so that a foreman who types an event has his answer;
// memory does not grow with the input.

#![tactic(auto)]

use chunks::{carry, read_on, sent};
use engine::{KEPT, LIST};
use plan::RECORD_BYTES;
use rows::SHEET;
use std::io::{Stdin, Stdout};
use turns::turn;

// The input that is read at once.
const CHUNK: usize = 4096;

// The room for the plan file: the largest one, one record more, and an unfinished one.
const FRONT: usize = plan::RECORD_BYTES * (plan::MOST_RECORDS + 2);

// The lines that go out at once.
const LINES: usize = 8192;

// Reads standard input to its end and prints: in full, the plan test and every reply; else one line for each event. It ends early where
// the output is closed.
pub fn print(input: Stdin, output: Stdout, full: bool) {
    let mut chunk = [0u8; CHUNK];
    let mut front = [0u8; FRONT];
    let mut lines = [0u8; LINES];
    let mut rows = [0u32; SHEET];
    let mut into = [0u16; LIST];
    let mut out = [0u16; LIST];
    let mut ends = [0u16; LIST];
    let mut kept = [0u32; KEPT];
    let mut stage = machine::begin();
    let mut at: usize = 0;
    for _ in 0..u64::MAX {
        let n = read_on(input, &mut chunk, at);
        let over = (n == at) & (n < RECORD_BYTES);
        stage = turn(
            full,
            over,
            stage,
            &mut front,
            &mut rows,
            &mut into,
            &mut out,
            &mut ends,
            &mut kept,
            &chunk[..n],
            &mut lines,
        );
        if !sent(output, &lines, stage.end) | over {
            break;
        }
        at = carry(&mut chunk, stage.used, n);
    }
}
