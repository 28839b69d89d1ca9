// The shapes that lines have: which of their pieces are words and which are numbers. A word is the codes of its letters to the
// base 256, the first letter lowest.
ghost use Rattle.std.specs.Prelude.{◌≡◌, [], ◌∷◌};
ghost use Rattle.lines.specs.Text.{said};
ghost use Rattle.lines.specs.declared.Piece.TheVariants.{Name, Number};

use crate::{Line, Piece, line_of, long_line};

// A word alone.
pub fn word(word: u64) -> Line
    ensures { result ≡ said (Name word) [] }
{
    line_of(Piece::Name(word), &[])
}

// Two words.
pub fn two(word: u64, what: u64) -> Line
    ensures { result ≡ said (Name word) (Name what ∷ []) }
{
    line_of(Piece::Name(word), &[Piece::Name(what)])
}

// A word and a number.
pub fn number(word: u64, n: u32) -> Line
    ensures { result ≡ said (Name word) (Number n ∷ []) }
{
    line_of(Piece::Name(word), &[Piece::Number(n as u64)])
}

// A word and two numbers.
pub fn numbers(word: u64, a: u64, b: u64) -> Line
    ensures { result ≡ said (Name word) (Number a ∷ Number b ∷ []) }
{
    line_of(Piece::Name(word), &[Piece::Number(a), Piece::Number(b)])
}

// A word and three numbers.
pub fn three(word: u64, a: u64, b: u32, c: u32) -> Line
    ensures { result ≡ said (Name word) (Number a ∷ Number b ∷ Number c ∷ []) }
{
    line_of(
        Piece::Name(word),
        &[
            Piece::Number(a),
            Piece::Number(b as u64),
            Piece::Number(c as u64),
        ],
    )
}

// Two words and a number.
pub fn words(word: u64, what: u64, n: u32) -> Line
    ensures { result ≡ said (Name word) (Name what ∷ Number n ∷ []) }
{
    line_of(
        Piece::Name(word),
        &[Piece::Name(what), Piece::Number(n as u64)],
    )
}

// Two words and three numbers.
pub fn pair(word: u64, what: u64, a: u32, b: u32, c: u32) -> Line
    ensures { result ≡ said (Name word) (Name what ∷ Number a ∷ Number b ∷ Number c ∷ []) }
{
    line_of(
        Piece::Name(word),
        &[
            Piece::Name(what),
            Piece::Number(a as u64),
            Piece::Number(b as u64),
            Piece::Number(c as u64),
        ],
    )
}

// A word, two numbers and what they are.
pub fn state(word: u64, a: u32, b: u32, what: u64) -> Line
    ensures { result ≡ said (Name word) (Number a ∷ Number b ∷ Name what ∷ []) }
{
    line_of(
        Piece::Name(word),
        &[
            Piece::Number(a as u64),
            Piece::Number(b as u64),
            Piece::Name(what),
        ],
    )
}

// A word, two numbers, what they are and a number of that.
pub fn state_at(word: u64, a: u32, b: u32, what: u64, n: u32) -> Line
    ensures { result ≡ said (Name word) (Number a ∷ Number b ∷ Name what ∷ Number n ∷ []) }
{
    line_of(
        Piece::Name(word),
        &[
            Piece::Number(a as u64),
            Piece::Number(b as u64),
            Piece::Name(what),
            Piece::Number(n as u64),
        ],
    )
}

// A word, two numbers, what they are, a number of that, and what it is for: a word and three pieces.
pub fn state_by(
    word: u64,
    a: u32,
    b: u32,
    what: u64,
    n: u32,
    kind: u64,
    x: Piece,
    y: Piece,
    z: Piece,
) -> Line
    ensures { result ≡ said (Name word) (Number a ∷ Number b ∷ Name what ∷ Number n ∷ Name kind ∷ x ∷ y ∷ z ∷ []) }
{
    long_line(
        Piece::Name(word),
        &[
            Piece::Number(a as u64),
            Piece::Number(b as u64),
            Piece::Name(what),
            Piece::Number(n as u64),
            Piece::Name(kind),
            x,
            y,
            z,
        ],
    )
}

// Four numbers.
pub fn four(a: u64, b: u32, c: u32, d: u32) -> Line
    ensures { result ≡ said (Number a) (Number b ∷ Number c ∷ Number d ∷ []) }
{
    line_of(
        Piece::Number(a),
        &[
            Piece::Number(b as u64),
            Piece::Number(c as u64),
            Piece::Number(d as u64),
        ],
    )
}
