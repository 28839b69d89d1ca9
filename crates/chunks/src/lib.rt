// The chunk that the printing programs read into: what a read brings stands behind what was carried, and what is left of it over is carried to its
// front; and the front of a room of lines is written. What reads and writes is the handles of std, and no contract can say which bytes they bring or take:
// `read_on` says that it leaves what was carried as it was. An inner room: `carry` and `read_on` ask for places within the chunk.

#![tactic(auto)]

ghost use Rattle.std.specs.Prelude.{◌≡◌, ◌-◌, ◌≤◌, length, take, drop};

use buffers::within;
use handles::{read_some, write_all};
use records::RECORD_BYTES;
use std::io::{Stdin, Stdout};

// Writes out the first n bytes of the room; whether that went well.
pub fn sent(output: Stdout, lines: &[u8], n: usize) -> bool {
    let k = within(n, lines);
    write_all(output, &lines[..k])
}

// One read behind the first `at` bytes of the chunk, where no whole record waits there; answers how many stand in it then.
pub fn read_on(input: Stdin, chunk: &mut [u8], at: usize) -> usize
    requires { at ≤ length chunk.old }
    ensures room { result ≤ length chunk.new }
    ensures more { at ≤ result }
    ensures front { take at chunk.new ≡ take at chunk.old }
{
    if at >= RECORD_BYTES {
        return at;
    }
    let rest: &mut [u8] = &mut chunk[at..];
    at + read_some(input, rest)
}

// The bytes from `past` to `at` to the front; answers how many they are.
pub fn carry(chunk: &mut [u8], past: usize, at: usize) -> usize
    requires { (past ≤ at) × (at ≤ length chunk.old) }
    ensures many { result ≡ at - past }
    ensures bytes { take result chunk.new ≡ take result (drop past chunk.old) }
{
    chunk.copy_within(past..at, 0);
    at - past
}
