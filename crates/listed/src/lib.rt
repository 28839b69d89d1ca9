// A plan as a listing, the way back from `listing`: for each record the line that a person would type. specs/Listed states it, and
// proofs/PacksBack says that the lines of a plan file pack to its bytes. Nothing is asked of a caller.

#![tactic(auto)]

ghost use Rattle.std.specs.Prelude.{◌≡◌};
ghost use Rattle.listed.specs.Listed.{link_line, other_line, record_line};

use lines::{Line, Piece, blank, line_of, numbers};
use plan::{LINK, ORDINARY, POINT, Record, WAIT};
use text::signed;

// The kind words: the ASCII codes of their letters, the first in the lowest byte.
const POINT_WORD: u64 = 0x746e696f70;

const LINK_WORD: u64 = 0x6b6e696c;

const ORDINARY_WORD: u64 = 0x7972616e6964726f;

const WAIT_WORD: u64 = 0x74696177;

// `link A X Y C`.
fn link_line(r: Record) -> Line
    ensures { result ≡ link_line r }
{
    let a = Piece::Number(r.a as u64);
    let x = signed(r.first);
    let y = signed(r.second);
    let c = Piece::Number(r.b as u64);
    line_of(Piece::Name(LINK_WORD), &[a, x, y, c])
}

// `ordinary X D Y`, `wait V C W`, or no line where the record is neither.
fn other_line(r: Record) -> Line
    ensures { result ≡ other_line r }
{
    let a = Piece::Number(r.a as u64);
    let b = Piece::Number(r.b as u64);
    let d = signed(r.first);
    if r.kind == ORDINARY {
        return line_of(Piece::Name(ORDINARY_WORD), &[a, d, b]);
    }
    if r.kind == WAIT {
        return line_of(Piece::Name(WAIT_WORD), &[a, b, d]);
    }
    blank()
}

// The line of a record; none for a kind that no accepted plan has.
pub fn record_line(r: Record) -> Line
    ensures { result ≡ record_line r }
{
    if r.kind == POINT {
        return numbers(POINT_WORD, r.a as u64, r.code as u64);
    }
    if r.kind == LINK {
        return link_line(r);
    }
    other_line(r)
}
