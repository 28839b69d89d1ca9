// A program for tests alone: it takes rooms of any content for the engine that keeps counts, and events of any bytes, and writes the
// answers and the changed room, every number of it. compare/ROOMS.md says what is read and written. It calls the functions that are
// exported for C and Rust, so that what crosses there is tried too.

#![tactic(auto)]

mod bytes_of;
mod rooms_of;

ghost use Rattle.io.specs.Counts.{IsPrefixLen};

use bytes_of::{say_answer, say_halves, say_kept, say_links, say_list, say_rows};
use engine::{KEPT, LIST};
use handles::read_full;
use hulls::{BOARD, LINKS, REPLY};
use ponds::{ponds_begin, ponds_board, ponds_reply, ponds_take};
use rooms_of::{kept_of, links_of, list_of, rows_of, wide};
use rows::SHEET;
use std::io::Stdin;

// Where each room stands among the bytes of a case.
const KEPT_AT: u32 = 392;

const INTO_AT: u32 = 1172;

const OUT_AT: u32 = 3494;

const ENDS_AT: u32 = 5816;

const ROWS_AT: u32 = 8138;

// A number of two bytes that is read; as an error what came of it where the input has ended.
fn next_size(input: Stdin) -> Result<usize, usize> {
    let mut two = [0u8; 2];
    let n = read_full(input, &mut two);
    let size = wide(two[0]) as usize + 256 * (wide(two[1]) as usize);
    if n < 2 { Err(size) } else { Ok(size) }
}

// So many bytes of a buffer, or all that it has.
fn within(n: usize, bytes: &[u8]) -> usize
    ensures { IsPrefixLen result bytes.now }
{
    if n < bytes.len() { n } else { bytes.len() }
}

// The reply and the board that the rooms give.
fn say_both(
    rt: HostRuntime,
    links: &[u32; LINKS],
    rows: &[u32; SHEET],
    out: &[u16; LIST],
    kept: &[u32; KEPT],
) {
    let mut reply = [0u32; REPLY];
    ponds_reply(links, rows, out, kept, &mut reply);
    say_list(rt.stdout(), &reply);
    let mut board = [0u32; BOARD];
    ponds_board(kept, &mut board);
    say_list(rt.stdout(), &board);
}

// An event of so many bytes is read, taken, and everything after it written.
fn event(
    rt: HostRuntime,
    links: &[u32; LINKS],
    rows: &[u32; SHEET],
    into: &[u16; LIST],
    out: &[u16; LIST],
    ends: &[u16; LIST],
    kept: &mut [u32; KEPT],
    bytes: &mut [u8],
) {
    read_full(rt.stdin(), bytes);
    say_answer(
        rt.stdout(),
        ponds_take(links, rows, into, out, ends, kept, bytes),
    );
    say_kept(rt.stdout(), kept);
    say_both(rt, links, rows, out, kept);
}

// A plan file of so many bytes is read, where there is one, the rooms are begun from it, and all of them written.
fn begun(
    rt: HostRuntime,
    links: &mut [u32; LINKS],
    rows: &mut [u32; SHEET],
    into: &mut [u16; LIST],
    out: &mut [u16; LIST],
    ends: &mut [u16; LIST],
    kept: &mut [u32; KEPT],
    file: &mut [u8],
) {
    if file.len() == 0 {
        return;
    }
    read_full(rt.stdin(), file);
    say_answer(
        rt.stdout(),
        ponds_begin(file, links, rows, into, out, ends, kept),
    );
    say_links(rt.stdout(), links);
    say_kept(rt.stdout(), kept);
    say_halves(rt.stdout(), into);
    say_halves(rt.stdout(), out);
    say_halves(rt.stdout(), ends);
    say_rows(rt.stdout(), rows);
}

// The rooms of a case, its plan's length in bytes, and how many events it has.
fn day(rt: HostRuntime, rooms: &[u8], plan: usize, events: usize, buffer: &mut [u8]) {
    let mut links = links_of(rooms);
    let mut rows = rows_of(rooms, ROWS_AT);
    let mut into = list_of(rooms, INTO_AT);
    let mut out = list_of(rooms, OUT_AT);
    let mut ends = list_of(rooms, ENDS_AT);
    let mut kept = kept_of(rooms, KEPT_AT);
    let m = within(plan, buffer);
    begun(
        rt,
        &mut links,
        &mut rows,
        &mut into,
        &mut out,
        &mut ends,
        &mut kept,
        &mut buffer[..m],
    );
    say_both(rt, &links, &rows, &out, &kept);
    for _ in 0..events {
        let size = match next_size(rt.stdin()) {
            Ok(size) | Err(size) => size,
        };
        let n = within(size, buffer);
        event(
            rt,
            &links,
            &rows,
            &into,
            &out,
            &ends,
            &mut kept,
            &mut buffer[..n],
        );
    }
}

// A case; none where the input has ended.
fn case(rt: HostRuntime, space: &mut [u8], buffer: &mut [u8]) -> Option<()> {
    let events = next_size(rt.stdin()).ok()?;
    let plan = next_size(rt.stdin()).ok()?;
    let length = next_size(rt.stdin()).ok()?;
    let n = within(length, space);
    read_full(rt.stdin(), &mut space[..n]);
    let m = within(length, space);
    day(rt, &space[..m], plan, events, buffer);
    Some(())
}

fn main(rt: HostRuntime) {
    let mut room = io::large_buffer();
    let space: &mut [u8] = &mut room;
    let mut more = io::large_buffer();
    let buffer: &mut [u8] = &mut more;
    for _ in 0..u64::MAX {
        if case(rt, space, buffer).is_none() {
            break;
        }
    }
}
