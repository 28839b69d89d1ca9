// The rooms from their bytes, little-endian; past the bytes all is 0.
ghost use Rattle.std.specs.Prelude.{◌≡◌, ◌≤◌};

use engine::{KEPT, LIST};
use hulls::LINKS;
use rows::SHEET;

pub fn wide(x: u8) -> u32
    ensures { (result ≡ x) × (result ≤ 255) }
{
    x as u32
}

pub fn byte_at(bytes: &[u8], at: usize) -> u8 {
    if at < bytes.len() { bytes[at] } else { 0 }
}

// Two bytes.
fn half(bytes: &[u8], at: u32) -> u16 {
    let from = at as usize;
    (wide(byte_at(bytes, from)) + 256 * wide(byte_at(bytes, from + 1))) as u16
}

// Four bytes.
fn word(bytes: &[u8], at: u32) -> u32 {
    let from = at as usize;
    let high = wide(byte_at(bytes, from + 2)) + 256 * wide(byte_at(bytes, from + 3));
    wide(byte_at(bytes, from)) + 256 * (wide(byte_at(bytes, from + 1)) + 256 * high)
}

// The number of two bytes that is k-th from a place on, and of four.
fn half_at(bytes: &[u8], from: u32, k: u16) -> u16 {
    half(bytes, from % 65536 + 2 * (k as u32))
}

fn word_at(bytes: &[u8], from: u32, k: u16) -> u32 {
    word(bytes, from % 65536 + 4 * (k as u32))
}

// The numbers from a place on.
fn words_of<const N: usize>(bytes: &[u8], from: u32) -> [u32; N] {
    let mut room = [0u32; N];
    for k in 0..N {
        room[k] = word_at(bytes, from, (k % 65536) as u16);
    }
    room
}

pub fn links_of(bytes: &[u8]) -> [u32; LINKS] {
    words_of(bytes, 0)
}

pub fn kept_of(bytes: &[u8], from: u32) -> [u32; KEPT] {
    words_of(bytes, from)
}

pub fn list_of(bytes: &[u8], from: u32) -> [u16; LIST] {
    let mut room = [0u16; LIST];
    for k in 0..LIST {
        room[k] = half_at(bytes, from, k as u16);
    }
    room
}

pub fn rows_of(bytes: &[u8], from: u32) -> [u32; SHEET] {
    words_of(bytes, from)
}
