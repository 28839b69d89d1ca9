// What the programs read and write by: the handles of std for standard input, output and error, and rooms of the caller's; nothing here
// takes memory. No contract can say which bytes a handle brings or takes. A read that fails counts as the end of the input, and what
// writes says whether all went out.

#![tactic(auto)]

ghost use Rattle.io.specs.Counts.{IsPrefixLen};

use std::io::{Read, Stderr, Stdin, Stdout, Write};

// One read, which waits only until something is there; answers how many bytes it put at the room's front.
pub fn read_some(input: Stdin, room: &mut [u8]) -> usize
    ensures { IsPrefixLen result room.new }
{
    let mut from = input;
    match from.read(room) {
        Ok(n) => n,
        Err(_) => 0,
    }
}

// Reads until the room is full or the input ends; answers how many bytes it put at the room's front.
pub fn read_full(input: Stdin, room: &mut [u8]) -> usize
    ensures { IsPrefixLen result room.new }
{
    let mut done: usize = 0;
    // It goes on by what a read gave: no index is counted.
    while done < room.len() {
        let n = read_some(input, &mut room[done..]);
        if n == 0 {
            break;
        }
        done += n;
    }
    done
}

// Writes all of the bytes to standard output at once; whether that went well.
pub fn write_all(output: Stdout, bytes: &[u8]) -> bool {
    let mut to = output;
    to.write_all(bytes).is_ok()
}

// The same to standard error.
pub fn complain(error: Stderr, bytes: &[u8]) -> bool {
    let mut to = error;
    to.write_all(bytes).is_ok()
}
