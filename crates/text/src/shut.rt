// The line of a point that is shut: the record that keeps it so, as a listing has it. Document 02, §6.
ghost use Rattle.std.specs.Prelude.{◌≡◌, ◌∷◌};
ghost use Rattle.lines.specs.Text.{said};
ghost use Rattle.lines.specs.declared.Piece.TheVariants.{Name, Number};
ghost use Rattle.text.specs.Words.{point_word, shut_word};
ghost use Rattle.text.specs.Lines.{signed_piece, record_at, record_pieces};

use crate::{POINT, SHUT};
use lines::{Line, Piece, state, state_at, state_by};
use plan::{Record, split};

const ORDINARY: u64 = 0x7972616e6964726f;

const WAIT: u64 = 0x74696177;

// A number, which may be below zero.
pub fn signed(d: i32) -> Piece
    ensures { result ≡ signed_piece d }
{
    let gap = split(d);
    if gap.down == 0 {
        return Piece::Number(gap.up as u64);
    }
    Piece::Below(gap.down as u64)
}

// `point I POND shut`, then `N ordinary X D Y` or `N wait V C W`, where record N keeps the point shut.
pub(crate) fn shut_line(point: u32, pond: u32, n: u32, reason: Record) -> Line
    ensures { result ≡ said (Name point_word) (Number point ∷ Number pond ∷ Name shut_word ∷ record_at n (record_pieces reason)) }
{
    if n == 0 {
        return state(POINT, point, pond, SHUT);
    }
    let a = Piece::Number(reason.a as u64);
    let b = Piece::Number(reason.b as u64);
    let d = signed(reason.first);
    if reason.kind == plan::ORDINARY {
        return state_by(POINT, point, pond, SHUT, n, ORDINARY, a, d, b);
    }
    if reason.kind == plan::WAIT {
        return state_by(POINT, point, pond, SHUT, n, WAIT, a, b, d);
    }
    state_at(POINT, point, pond, SHUT, n)
}
