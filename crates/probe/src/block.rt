// A request: sixteen bytes of standard input, which are a byte that says what is asked, three further bytes and three
// numbers.
ghost use Rattle.std.specs.Prelude.{◌≡◌, ◌≤◌};

use handles::read_full;
use std::io::Stdin;

// What is asked: that there is no further request, that something be put on the desk, or a call; any other number is answered with itself.
#[derive(Clone, Copy, PartialEq, Eq)]
pub enum Asked {
    Over,
    Count,
    Record,
    Clock,
    Minute,
    Fill,
    Put,
    Repeat,
    Number,
    Reply,
    Take,
    Verdict,
    Check,
    Write,
    Test,
    Read,
    Judge,
    Stream,
    Other(u8),
}

impl From<u8> for Asked {
    fn from(byte: u8) -> Asked {
        match byte {
            0 => Asked::Over,
            1 => Asked::Count,
            2 => Asked::Record,
            3 => Asked::Clock,
            4 => Asked::Minute,
            5 => Asked::Fill,
            6 => Asked::Put,
            7 => Asked::Repeat,
            8 => Asked::Number,
            16 => Asked::Reply,
            17 => Asked::Take,
            18 => Asked::Verdict,
            19 => Asked::Check,
            20 => Asked::Write,
            21 => Asked::Test,
            22 => Asked::Read,
            23 => Asked::Judge,
            24 => Asked::Stream,
            9..=15 | 25..=255 => Asked::Other(byte),
        }
    }
}

#[derive(Clone, Copy)]
pub struct Block {
    pub asked: Asked,
    pub p: u8,
    pub q: u8,
    pub r: u8,
    pub first: u32,
    pub second: u32,
    pub third: u32,
}

pub fn wide(x: u8) -> u32
    ensures { (result ≡ x) × (result ≤ 255) }
{
    x as u32
}

pub fn word(a: u8, b: u8, c: u8, d: u8) -> u32 {
    wide(a) + 256 * (wide(b) + 256 * (wide(c) + 256 * wide(d)))
}

fn block_of(bytes: &[u8; 16], whole: bool) -> Block {
    let asked = if whole {
        Asked::from(bytes[0])
    } else {
        Asked::Over
    };
    Block {
        asked,
        p: bytes[1],
        q: bytes[2],
        r: bytes[3],
        first: word(bytes[4], bytes[5], bytes[6], bytes[7]),
        second: word(bytes[8], bytes[9], bytes[10], bytes[11]),
        third: word(bytes[12], bytes[13], bytes[14], bytes[15]),
    }
}

// The next request; that there is none once the input has ended.
pub fn next_block(input: Stdin) -> Block {
    let mut bytes = [0u8; 16];
    let n = read_full(input, &mut bytes);
    block_of(&bytes, n == 16)
}

// Thirty-two bits, read as signed.
pub fn signed(x: u32) -> i32 {
    if x < 2147483648 {
        x as i32
    } else {
        let m = 4294967295 - x;
        -1 - (m as i32)
    }
}
