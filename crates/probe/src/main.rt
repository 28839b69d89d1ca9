// A program for tests and the benchmark alone: it takes requests for calls of the libraries that no stream of the printing
// programs reaches (plans, boards and events of any content), and answers each by lines of four numbers. compare/PROBE.md
// says what the requests are.

#![tactic(auto)]

mod answered;
mod block;
mod desk;
mod many;
mod says;

use block::{Asked, next_block};
use desk::Desk;

fn main(rt: HostRuntime) {
    let mut room = io::large_buffer();
    let buffer: &mut [u8] = &mut room;
    let mut desk = Desk::new();
    for _ in 0..u64::MAX {
        let block = next_block(rt.stdin());
        if block.asked == Asked::Over {
            break;
        }
        desk = desk.next(rt.stdout(), block, buffer);
    }
}
