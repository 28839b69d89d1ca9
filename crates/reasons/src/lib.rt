// The lines of `desk explain` behind that of the test, proved from what they tell. An inner room of the program `desk`.

#![tactic(auto)]

ghost use Rattle.std.specs.Prelude.{◌≡◌};
ghost use Rattle.reasons.specs.Reasons.{length_piece, length_line, drive_line, shortest_line, allowed_line, step_line, sum_line};

use explained::Drive;
use lengths::{Length, length_of};
use lines::{Line, Piece, line_of};
use ways::Step;

// The words of the lines: the ASCII codes of their letters, the first in the lowest byte.
const DRIVE: u64 = 0x6576697264;

const SHORTEST: u64 = 0x74736574726f6873;

const ALLOWED: u64 = 0x6465776f6c6c61;

const NONE: u64 = 0x656e6f6e;

const STEP: u64 = 0x70657473;

const SUM: u64 = 0x6d7573;

// A length, with a minus sign below zero; `none` where there is no walk.
fn piece_of(length: Option<Length>) -> Piece
    ensures { result ≡ length_piece length }
{
    let Some(length) = length else {
        return Piece::Name(NONE);
    };
    if 0 < length.down {
        return Piece::Below(length.down);
    }
    Piece::Number(length.up)
}

// A word and a length.
fn length_line(word: u64, length: Option<Length>) -> Line
    ensures { result ≡ length_line word length }
{
    line_of(Piece::Name(word), &[piece_of(length)])
}

// `drive A C MINUTES`.
pub fn drive_line(drive: Drive) -> Line
    ensures { result ≡ drive_line drive }
{
    line_of(
        Piece::Name(DRIVE),
        &[
            Piece::Number(drive.from),
            Piece::Number(drive.to),
            Piece::Number(drive.minutes),
        ],
    )
}

// `step RECORD FROM TO LENGTH`.
pub fn step_line(step: Step) -> Line
    ensures { result ≡ step_line step }
{
    let length = piece_of(Some(length_of(step.up, step.down)));
    line_of(
        Piece::Name(STEP),
        &[
            Piece::Number(step.row as u64),
            Piece::Number(step.from as u64),
            Piece::Number(step.to as u64),
            length,
        ],
    )
}

// `shortest LENGTH`.
pub fn shortest_line(length: Option<Length>) -> Line
    ensures { result ≡ shortest_line length }
{
    length_line(SHORTEST, length)
}

// `allowed LENGTH`, or `allowed none`.
pub fn allowed_line(length: Option<Length>) -> Line
    ensures { result ≡ allowed_line length }
{
    length_line(ALLOWED, length)
}

// `sum LENGTH`.
pub fn sum_line(length: Option<Length>) -> Line
    ensures { result ≡ sum_line length }
{
    length_line(SUM, length)
}
