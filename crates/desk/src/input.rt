// Standard input as one file: its front is kept, and of the rest only how long it is.
ghost use Rattle.std.specs.Prelude.{◌≡◌, length};

use handles::read_full;
use plan::{MOST_RECORDS, RECORD_BYTES};
use std::io::Stdin;

// Passes over all that is left of the input, and answers how many bytes that was.
fn pass_over(input: Stdin, rest: &mut [u8]) -> u64 {
    let mut total: u64 = 0;
    for _ in 0..u64::MAX {
        let n = read_full(input, rest);
        total = total.wrapping_add(n as u64);
        if n < rest.len() {
            break;
        }
    }
    total
}

// Fills the front with the input as far as it goes, and answers how long all of the input is.
pub(crate) fn read_all(input: Stdin, front: &mut [u8]) -> u64 {
    let n = read_full(input, front);
    if n < front.len() {
        return n as u64;
    }
    let mut room = piece_room();
    (n as u64).wrapping_add(pass_over(input, &mut room))
}

// So many bytes are read at once where the input is not held.
const PIECE: usize = 16384;

// Room for them. The `ensures` gives only the length, which lending it as a slice needs.
pub(crate) fn piece_room() -> [u8; PIECE]
    ensures { 16384 ≡ length result }
{
    [0; PIECE]
}

// Room for the front of a plan file: all of one, or of a longer one as much as its refusal needs. The `ensures` gives only the length.
pub(crate) fn plan_room() -> [u8; RECORD_BYTES * (MOST_RECORDS + 2)]
    ensures { 18080 ≡ length result }
{
    [0; RECORD_BYTES * (MOST_RECORDS + 2)]
}
