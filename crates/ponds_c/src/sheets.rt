// What is said of a day at its end, by the board that an engine's room holds: the verdict, and the calendar.
ghost use Rattle.std.specs.Prelude.{◌≡◌};
ghost use Rattle.told.specs.Told.{verdict_answer, verdict_room};
ghost use Rattle.ended_files.specs.Ended.{verdict_file, stamp_of, calendar_file, calendar_left, calendar_answer};

use engine::KEPT;

// The verdict: the plan's own refusal with its record, 20, 31, or 0 and in the room 0 for kept, or 1 and the broken record.
#[unsafe(no_mangle)]
pub extern "C" fn ponds_verdict(file: &[u8], kept: &[u32; KEPT], room: &mut [u32; 2]) -> u64
    ensures reply { result ≡ verdict_answer (verdict_file file.now kept.now) }
    ensures room { room.new ≡ verdict_room (verdict_file file.now kept.now) room.old }
{
    ponds::ponds_verdict(file, kept, room)
}

// The board as an iCalendar text, minute 0 being the date, hour and minute that are given: the plan's own refusal with its record, 20, 31,
// 51, 52, or 0 with the text's length.
#[unsafe(no_mangle)]
pub extern "C" fn ponds_calendar(
    file: &[u8],
    kept: &[u32; KEPT],
    year: u32,
    month: u32,
    day: u32,
    hour: u32,
    minute: u32,
    out: &mut [u8],
) -> u64
    ensures reply { result ≡ calendar_answer (calendar_file file.now kept.now (stamp_of year month day hour minute) out.old) }
    ensures bytes { out.new ≡ calendar_left file.now kept.now (stamp_of year month day hour minute) out.old }
{
    ponds::ponds_calendar(file, kept, year, month, day, hour, minute, out)
}
