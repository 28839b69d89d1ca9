// Bytes and lines behind what a buffer holds already, as far as there is room.
ghost use Rattle.std.specs.Prelude.{◌≡◌, ◌+◌, min, leb, length, take};
ghost use Rattle.io.specs.Counts.{IsPrefixLen};
ghost use Rattle.buffers.specs.Behind.{end_of, appended};

use crate::put;
use lines::Line;

// So many bytes of a buffer, or all that it has.
pub fn within(n: usize, bytes: &[u8]) -> usize
    ensures counts { IsPrefixLen result bytes.now }
    ensures least { result ≡ min n (length bytes.now) }
{
    n.min(bytes.len())
}

// Whether so many bytes more fit behind the first `at` of a buffer of some length.
pub fn fits(length: usize, at: usize, more: usize) -> bool
    ensures { result ≡ leb (at + more) length }
{
    at <= length && more <= length - at
}

// The bytes behind the first `at` of the buffer, if they fit; answers where they end.
pub fn append(into: &mut [u8], at: usize, from: &[u8]) -> usize
    ensures place { result ≡ end_of into.old at from.now }
    ensures bytes { into.new ≡ appended into.old at from.now }
{
    if !fits(into.len(), at, from.len()) {
        return at;
    }
    put(into, at, from)
}

// The text of a line behind the first `waiting` bytes of the buffer; answers how many there are then.
pub fn behind(lines: &mut [u8], waiting: usize, line: Line) -> usize
    ensures place { result ≡ end_of lines.old waiting (take (min line.len (length line.bytes)) line.bytes) }
    ensures bytes { lines.new ≡ appended lines.old waiting (take (min line.len (length line.bytes)) line.bytes) }
{
    append(lines, waiting, line.text())
}
