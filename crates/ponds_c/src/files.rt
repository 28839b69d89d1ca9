// A plan file checked and tested, its worst finishing minute, and the day behind it.
ghost use Rattle.std.specs.Prelude.{◌≡◌};
ghost use Rattle.told.specs.Told.{test_answer, test_room, worst_answer, worst_room};
ghost use Rattle.filed.specs.Files.{check_answer, test_file, worst_file, day_file, day_left, day_answer};

// A plan file's own refusal with its record, or 0 with how many records there are.
#[unsafe(no_mangle)]
pub extern "C" fn ponds_check(file: &[u8]) -> u64
    ensures { result ≡ check_answer file.now }
{
    ponds::ponds_check(file)
}

// The plan test: the plan's own refusal with its record, 13, or 0 and the answer in four numbers: 0 for yes, 1 for a cycle, 2 for a pair;
// how many projections were tried, or which one fails; and the pair.
#[unsafe(no_mangle)]
pub extern "C" fn ponds_test(file: &[u8], room: &mut [u32; 4]) -> u64
    ensures reply { result ≡ test_answer (test_file file.now) }
    ensures room { room.new ≡ test_room (test_file file.now) room.old }
{
    ponds::ponds_test(file, room)
}

// The plan's own refusal with its record, 13, 60, or 0 and in the room the worst finishing minute and the first projection that reaches it.
#[unsafe(no_mangle)]
pub extern "C" fn ponds_worst(file: &[u8], room: &mut [u32; 2]) -> u64
    ensures reply { result ≡ worst_answer (worst_file file.now) }
    ensures room { room.new ≡ worst_room (worst_file file.now) room.old }
{
    ponds::ponds_worst(file, room)
}

// The plan's own refusal with its record, 13, 60, 12, or 0 with how many events that projection's run has, and their sixteen bytes each at
// the front of the buffer.
#[unsafe(no_mangle)]
pub extern "C" fn ponds_day(file: &[u8], projection: u32, out: &mut [u8]) -> u64
    ensures reply { result ≡ day_answer (day_file file.now projection out.old) }
    ensures bytes { out.new ≡ day_left file.now projection out.old }
{
    ponds::ponds_day(file, projection, out)
}
