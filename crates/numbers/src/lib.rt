// Numbers: four bytes little-endian, thirty-two bits as a signed number and back, and what a signed number adds or takes away. An
// inner room: it serves our own crates, and `word_at` asks its caller that the four bytes are there.

#![tactic(auto)]

ghost use Rattle.std.specs.Prelude.{◌≡◌, ◌+◌, ◌≤◌, length};
ghost use Rattle.numbers.specs.Numbers.{word_at, signed_of, bits_of, gap_of};

// A signed number as what it adds and what it takes away.
#[derive(Clone, Copy)]
pub struct Gap {
    pub up: u32,
    pub down: u32,
}

// The number that four bytes stand for.
pub fn word_at(bytes: &[u8], at: usize) -> u32
    requires { at + 4 ≤ length bytes.now }
    ensures { result ≡ word_at bytes.now at }
{
    u32::from_le_bytes([bytes[at], bytes[at + 1], bytes[at + 2], bytes[at + 3]])
}

// Thirty-two bits, read as signed.
pub fn signed(x: u32) -> i32
    ensures { result ≡ signed_of x }
{
    x.cast_signed()
}

// The thirty-two bits of a signed number.
pub fn bits(x: i32) -> u32
    ensures { result ≡ bits_of x }
{
    x.cast_unsigned()
}

// A signed number's parts: what it adds where it is not negative, what it takes away where it is.
pub fn split(d: i32) -> Gap
    ensures { result ≡ gap_of d }
{
    let size = d.unsigned_abs();
    if d < 0 {
        Gap { up: 0, down: size }
    } else {
        Gap { up: size, down: 0 }
    }
}
