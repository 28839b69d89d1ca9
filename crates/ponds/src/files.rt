// A plan file checked and tested, its worst finishing minute, and the day behind it.
ghost use Rattle.std.specs.Prelude.{◌≡◌};
ghost use Rattle.told.specs.Told.{test_answer, test_room, worst_answer, worst_room};
ghost use Rattle.filed.specs.Files.{check_answer, test_file, worst_file, day_file, day_left, day_answer};

use filed::{check_file, day_file, test_file, worst_file};
use halves::answer_with;
use plan::ACCEPTED;
use told::{tell_test, tell_worst};

// A plan file's own refusal with its record, or 0 with how many records there are.
#[unsafe(no_mangle)]
pub extern "C" fn ponds_check(file: &[u8]) -> u64
    ensures { result ≡ check_answer file.now }
{
    check_file(file)
}

// The plan test: the plan's own refusal with its record, 13, or 0 and the answer in four numbers: 0 for yes, 1 for a cycle, 2 for a pair;
// how many projections were tried, or which one fails; and the pair.
#[unsafe(no_mangle)]
pub extern "C" fn ponds_test(file: &[u8], room: &mut [u32; 4]) -> u64
    ensures reply { result ≡ test_answer (test_file file.now) }
    ensures room { room.new ≡ test_room (test_file file.now) room.old }
{
    let found = test_file(file);
    tell_test(found, room)
}

// The plan's own refusal with its record, 13, 60, or 0 and in the room the worst finishing minute and the first projection that reaches it.
#[unsafe(no_mangle)]
pub extern "C" fn ponds_worst(file: &[u8], room: &mut [u32; 2]) -> u64
    ensures reply { result ≡ worst_answer (worst_file file.now) }
    ensures room { room.new ≡ worst_room (worst_file file.now) room.old }
{
    let found = worst_file(file);
    tell_worst(found, room)
}

// The plan's own refusal with its record, 13, 60, 12, or 0 with how many events that projection's run has, and their sixteen bytes each at
// the front of the buffer.
#[unsafe(no_mangle)]
pub extern "C" fn ponds_day(file: &[u8], projection: u32, out: &mut [u8]) -> u64
    ensures reply { result ≡ day_answer (day_file file.now projection out.old) }
    ensures bytes { out.new ≡ day_left file.now projection out.old }
{
    match day_file(file, projection, out) {
        Ok(events) => answer_with(ACCEPTED, 0, events),
        Err(refusal) => answer_with(refusal.number, refusal.place, 0),
    }
}
