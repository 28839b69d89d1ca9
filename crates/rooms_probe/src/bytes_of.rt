// Numbers as the bytes that are written, little-endian.
use engine::{KEPT, LIST};
use handles::write_all;
use hulls::{LINKS, REPLY};
use rows::SHEET;
use std::io::Stdout;

// One byte of a number: the lowest, or those above it.
fn byte_of(x: u32, k: u32) -> u8 {
    let y = match k {
        0 => x,
        1 => x / 256,
        2 => x / 65536,
        _ => x / 16777216,
    };
    (y % 256) as u8
}

// The lower and the upper half of 64 bits.
fn low(x: u64) -> u32 {
    (x % 4294967296) as u32
}

fn high(x: u64) -> u32 {
    (x / 4294967296) as u32
}

// An answer of 64 bits.
pub fn say_answer(out: Stdout, answer: u64) {
    let x = low(answer);
    let y = high(answer);
    let bytes = [
        byte_of(x, 0),
        byte_of(x, 1),
        byte_of(x, 2),
        byte_of(x, 3),
        byte_of(y, 0),
        byte_of(y, 1),
        byte_of(y, 2),
        byte_of(y, 3),
    ];
    write_all(out, &bytes);
}

// How many bytes each room is; a board is as long as a reply.
const LINKS_BYTES: usize = 4 * LINKS;

const KEPT_BYTES: usize = 4 * KEPT;

const LIST_BYTES: usize = 4 * REPLY;

const HALVES_BYTES: usize = 2 * LIST;

const ROWS_BYTES: usize = 4 * SHEET;

// The bytes of a room's numbers; past them all is 0.
fn bytes_of<const N: usize>(room: &[u32]) -> [u8; N] {
    let mut bytes = [0u8; N];
    for k in 0..N {
        let x = room.get(k / 4).copied().unwrap_or(0);
        bytes[k] = byte_of(x, (k % 4) as u32);
    }
    bytes
}

fn halves_bytes(room: &[u16; LIST]) -> [u8; HALVES_BYTES] {
    let mut bytes = [0u8; HALVES_BYTES];
    for k in 0..HALVES_BYTES {
        bytes[k] = byte_of(room[k / 2] as u32, (k % 2) as u32);
    }
    bytes
}

pub fn say_links(out: Stdout, room: &[u32; LINKS]) {
    let bytes = bytes_of::<LINKS_BYTES>(room);
    write_all(out, &bytes);
}

pub fn say_kept(out: Stdout, room: &[u32; KEPT]) {
    let bytes = bytes_of::<KEPT_BYTES>(room);
    write_all(out, &bytes);
}

pub fn say_list(out: Stdout, room: &[u32; REPLY]) {
    let bytes = bytes_of::<LIST_BYTES>(room);
    write_all(out, &bytes);
}

pub fn say_halves(out: Stdout, room: &[u16; LIST]) {
    let bytes = halves_bytes(room);
    write_all(out, &bytes);
}

pub fn say_rows(out: Stdout, room: &[u32; SHEET]) {
    let bytes = bytes_of::<ROWS_BYTES>(room);
    write_all(out, &bytes);
}
