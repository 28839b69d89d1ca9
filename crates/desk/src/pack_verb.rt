// `desk pack`: a listing typed by people, and the records that it says, as the other verbs, `sheet` and `offers` read them. Nothing is
// written unless every line is good; else standard error has the first bad line, counted from 1, and what was expected there. A listing
// is held whole, so one that is longer than any day is wrong usage.
use crate::input::read_all;
use crate::say::{Out, put, say};
use listing::{A_LONGER_BUFFER, Refused, pack};
use stream::within;

// What was expected, by its number.
const A_KIND: [u8; 62] = *b"pack: expected point, link, ordinary, wait, mark or event, at ";

const SO_MANY_WORDS: [u8; 49] = *b"pack: expected as many words as its kind has, at ";

const A_POINT: [u8; 37] = *b"pack: expected a point, 0 to 255, at ";

const A_NUMBER: [u8; 55] = *b"pack: expected a number, -2147483648 to 2147483647, at ";

const A_COUNT: [u8; 45] = *b"pack: expected a number, 0 to 4294967295, at ";

const A_POINT_OR_NONE: [u8; 45] = *b"pack: expected none or a point, 0 to 254, at ";

const A_SET: [u8; 51] = *b"pack: expected none or points below 32, as 2,4, at ";

// The longest listing: what `large_buffer` of `io` holds, and so for its records.
const TEXT_ROOM: u64 = 65536;

const TOO_LONG: [u8; 82] =
    *b"usage: a listing for pack has at most 65536 bytes and makes at most 4096 records.\n";

// What was expected, in words; nothing for a number that is none.
fn say_expected(rt: HostRuntime, number: u32) {
    match number {
        1 => put(rt, Out::Error, &A_KIND),
        2 => put(rt, Out::Error, &SO_MANY_WORDS),
        3 => put(rt, Out::Error, &A_POINT),
        4 => put(rt, Out::Error, &A_NUMBER),
        5 => put(rt, Out::Error, &A_COUNT),
        6 => put(rt, Out::Error, &A_POINT_OR_NONE),
        7 => put(rt, Out::Error, &A_SET),
        0 | 8..=4294967295 => {}
    }
}

// What is said of a bad line, or of a listing that makes too many records.
fn refuse(rt: HostRuntime, refused: Refused) {
    if A_LONGER_BUFFER <= refused.number {
        put(rt, Out::Error, &TOO_LONG);
        return;
    }
    say_expected(rt, refused.number);
    let line = (refused.line % 4294967296) as u32;
    say(rt, Out::Error, answers::line_number(line))
}

// What the first so many bytes say.
fn packed(rt: HostRuntime, text: &[u8], length: usize) {
    let mut room = io::large_buffer();
    let n = within(length, text);
    match pack(&text[..n], &mut room) {
        Ok(written) => {
            let m = within(written, &room);
            put(rt, Out::Output, &room[..m]);
        }
        Err(refused) => refuse(rt, refused),
    }
}

pub(crate) fn run(rt: HostRuntime) {
    let mut room = io::large_buffer();
    let text: &mut [u8] = &mut room;
    let length = read_all(rt.stdin(), text);
    if TEXT_ROOM < length {
        put(rt, Out::Error, &TOO_LONG);
        return;
    }
    packed(rt, text, length as usize)
}
