// What is said of a day at its end, of a plan file that is given as bytes and the board that an engine's room holds: the verdict, and the calendar; or
// the reader's own refusal. It takes any bytes and any rooms. An inner room: it serves `ponds`. Nothing is asked of a caller.

#![tactic(auto)]

ghost use Rattle.std.specs.Prelude.{◌≡◌};
ghost use Rattle.ended_files.specs.Ended.{verdict_file, stamp_of, calendar_file, calendar_left, calendar_answer};

use calendar::write_by;
use codes::ponds_of;
use dates::Stamp;
use engine::KEPT;
use halves::{answer, half};
use hulls::board_in;
use links::links_by;
use plan::{ACCEPTED, Refusal};
use plan_file::read;
use verdict::{Verdict, verdict_of};

// The verdict.
pub fn verdict_file(file: &[u8], kept: &[u32; KEPT]) -> Verdict
    ensures { result ≡ verdict_file file.now kept.now }
{
    match read(file) {
        Ok(plan) => verdict_of(plan, board_in(kept)),
        Err(refusal) => Verdict::Refused(refusal.number, refusal.place),
    }
}

// The calendar, at the front of the buffer.
pub fn calendar_file(
    file: &[u8],
    kept: &[u32; KEPT],
    origin: Stamp,
    out: &mut [u8],
) -> Result<usize, Refusal>
    ensures reply { result ≡ calendar_file file.now kept.now origin out.old }
    ensures bytes { out.new ≡ calendar_left file.now kept.now origin out.old }
{
    let plan = match read(file) {
        Ok(plan) => plan,
        Err(refusal) => return Err(refusal),
    };
    let board = board_in(kept);
    let links = links_by(plan, true);
    write_by(links, ponds_of(plan), board, origin, out)
}

// The same, minute 0 being the date, hour and minute that are given: the refusal, or 0 with the text's length.
pub fn tell_calendar(
    file: &[u8],
    kept: &[u32; KEPT],
    year: u32,
    month: u32,
    day: u32,
    hour: u32,
    minute: u32,
    out: &mut [u8],
) -> u64
    ensures reply { result ≡ calendar_answer (calendar_file file.now kept.now (stamp_of year month day hour minute) out.old) }
    ensures bytes { out.new ≡ calendar_left file.now kept.now (stamp_of year month day hour minute) out.old }
{
    let origin = Stamp {
        year,
        month,
        day,
        hour,
        minute,
    };
    match calendar_file(file, kept, origin, out) {
        Ok(length) => answer(ACCEPTED, half(length)),
        Err(refusal) => answer(refusal.number, refusal.place),
    }
}
