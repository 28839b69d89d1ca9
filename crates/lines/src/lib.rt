// A line of text as a value: words and decimal numbers with no leading zeros, single spaces between them, one line feed. It
// has a length, and room for the longest line, zero past its length. Document 01, "The printing program". An inner room of the
// crates that print: `line_of` has a `requires`, which every caller is proved to meet.

#![tactic(auto)]

ghost use Rattle.std.specs.Prelude.{◌≡◌, [], ◌∷◌, ◌+◌, ◌%◌, ◌≤◌, length, min, take};
ghost use Rattle.lines.specs.Text.{room, line_of, letters, decimal, piece_text, more_text, text_of};
ghost use Rattle.lines.specs.Inside.{with, RoomFor, Spelt};

mod shapes;

pub use shapes::{four, number, numbers, pair, state, state_at, state_by, three, two, word, words};

// Room for a line: five pieces of at most twenty-one characters, or nine of which three are words and three are numbers of
// thirty-two bits, and what stands between them.
pub const ROOM: usize = 128;

// A fixed buffer with its length, since the project has no heap.
#[derive(Clone, Copy)]
pub struct Line {
    pub len: usize,
    pub bytes: [u8; ROOM],
}

// A word; a number; so much below zero.
#[derive(Clone, Copy)]
pub enum Piece {
    Name(u64),
    Number(u64),
    Below(u64),
}

// No number of 64 bits has more digits.
const DIGITS: usize = 20;

// The digits of a number, from a place on.
#[derive(Clone, Copy)]
struct Digits {
    from: usize,
    digits: [u8; DIGITS],
}

impl Line {
    // The text of the line; the whole room where its length is past that.
    pub fn text(&self) -> &[u8]
        ensures { result.now ≡ take (min self.now.len (length self.now.bytes)) self.now.bytes }
    {
        &self.bytes[..self.len.min(ROOM)]
    }
}

// An empty line.
pub fn blank() -> Line
    ensures { result ≡ line_of [] }
{
    Line {
        len: 0,
        bytes: [0u8; ROOM],
    }
}

// The line with a byte more.
fn with_byte(line: Line, b: u8) -> Line
    requires { RoomFor line (b ∷ []) }
    ensures { result ≡ with line (b ∷ []) }
{
    let mut next = line;
    let at = next.len;
    next.bytes[at] = b;
    next.len = at + 1;
    next
}

// The line with a word more.
fn with_word(line: Line, word: u64) -> Line
    requires { RoomFor line (letters word) }
    ensures { result ≡ with line (letters word) }
{
    let mut next = line;
    let mut left = word;
    // By division: no index is counted.
    while left != 0 {
        let at = next.len;
        next.bytes[at] = (left % 256) as u8;
        next.len = at + 1;
        left = left / 256;
    }
    next
}

// The last decimal digit of a number, as a character.
fn last_digit(n: u64) -> u8
    ensures { result ≡ 48 + n % 10 }
{
    b'0' + ((n % 10) as u8)
}

// The decimal digits of a number, at the end of the room.
fn digits_of(n: u64) -> Digits
    ensures { Spelt n result }
{
    let mut digits = [0u8; DIGITS];
    let mut left = n;
    let mut from = DIGITS - 1;
    digits[from] = last_digit(left);
    left = left / 10;
    // By division: no index is counted.
    while left != 0 {
        from -= 1;
        digits[from] = last_digit(left);
        left = left / 10;
    }
    Digits { from, digits }
}

// The line with a number more, in decimal.
fn with_number(line: Line, n: u64) -> Line
    requires { RoomFor line (decimal n) }
    ensures { result ≡ with line (decimal n) }
{
    let spelt = digits_of(n);
    let mut next = line;
    for i in spelt.from..DIGITS {
        let at = next.len;
        next.bytes[at] = spelt.digits[i];
        next.len = at + 1;
    }
    next
}

// The line with a piece more.
fn with_piece(line: Line, piece: Piece) -> Line
    requires { RoomFor line (piece_text piece) }
    ensures { result ≡ with line (piece_text piece) }
{
    match piece {
        Piece::Name(word) => with_word(line, word),
        Piece::Number(n) => with_number(line, n),
        Piece::Below(n) => with_number(with_byte(line, b'-'), n),
    }
}

// The line with some pieces more, each behind a space.
fn with_more(line: Line, more: &[Piece]) -> Line
    requires { RoomFor line (more_text more.now) }
    ensures { result ≡ with line (more_text more.now) }
{
    let mut next = line;
    for &piece in more {
        next = with_piece(with_byte(next, b' '), piece);
    }
    next
}

// A whole line: a piece, and up to four more.
pub fn line_of(first: Piece, more: &[Piece]) -> Line
    requires { length more.now ≤ 4 }
    ensures { result ≡ line_of (text_of first more.now) }
{
    long_line(first, more)
}

// A whole line of as many pieces as there is room for.
pub(crate) fn long_line(first: Piece, more: &[Piece]) -> Line
    requires { length (text_of first more.now) ≤ room }
    ensures { result ≡ line_of (text_of first more.now) }
{
    let line = with_more(with_piece(blank(), first), more);
    with_byte(line, b'\n')
}
