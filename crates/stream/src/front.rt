// The plan part of an input, of which only the front is kept: a plan longer than any is told by its length alone.
ghost use Rattle.std.specs.Prelude.{◌≡◌};
ghost use Rattle.stream.specs.Sheets.{shown, read_front};

use buffers::within;
use plan::{MOST_RECORDS, Plan, RECORD_BYTES, Refusal};

// So many bytes of a plan part are read: all of it, or, where it is longer than any plan, one record more than a plan may
// have and what its length leaves over.
fn shown(length: u64) -> usize
    ensures { result ≡ shown length }
{
    let most = RECORD_BYTES * (MOST_RECORDS + 1);
    if length < most as u64 {
        length as usize
    } else {
        most + (length % RECORD_BYTES as u64) as usize
    }
}

// Reads a plan part of so many bytes, the first of which stand at the front of the buffer.
pub fn read_front(length: u64, front: &[u8]) -> Result<Plan, Refusal>
    ensures { result ≡ read_front length front.now }
{
    let n = within(shown(length), front);
    plan_file::read(&front[..n])
}
