// The plan part: its records are kept in a room, one behind the other, as far as there is room. A plan longer than any is told by its
// length alone.
ghost use Rattle.std.specs.Prelude.{◌≡◌, ◌+◌, ◌%◌, ◌^◌, length};
ghost use Rattle.stream.specs.Buffers.{appended};
ghost use Rattle.feeding.specs.Parts.{PlanKept};

use plan::RECORD_BYTES;
use stream::{append, is_mark};

// The bytes of the plan part so far, how many bytes of the piece were used, and whether the mark was among them.
// Length and bytes used are answered with the mark and without: so no Option.
#[derive(Clone, Copy)]
pub struct Part {
    pub length: u64,
    pub used: usize,
    pub marked: bool,
}

// The whole records of a piece, up to the mark.
pub fn keep_plan(front: &mut [u8], length: u64, input: &[u8]) -> Part
    ensures { PlanKept front.old length input.now front.new result }
{
    let n = input.len() / RECORD_BYTES;
    let mut now = length;
    for i in 0..n {
        let bytes = &input[RECORD_BYTES * i..RECORD_BYTES * i + RECORD_BYTES];
        if is_mark(bytes) {
            return Part {
                length: now,
                used: RECORD_BYTES * i + RECORD_BYTES,
                marked: true,
            };
        }
        append(front, now as usize, bytes);
        now = now.wrapping_add(RECORD_BYTES as u64);
    }
    Part {
        length: now,
        used: RECORD_BYTES * n,
        marked: false,
    }
}

// The input has ended in the plan part, with some bytes of an unfinished record; answers how many bytes the plan part has.
pub fn keep_rest(front: &mut [u8], at: u64, rest: &[u8]) -> u64
    ensures long { result ≡ (at + length rest.now) % 2 ^ 64 }
    ensures bytes { front.new ≡ appended front.old at rest.now }
{
    append(front, at as usize, rest);
    at.wrapping_add(rest.len() as u64)
}
