// `desk calendar YEAR MONTH DAY HOUR MINUTE`: what `sheet` reads, and the iCalendar text of the board after the events, minute 0 being
// the one that is given. A refusal goes to standard error, and nothing is written.
use crate::say::{Out, put, say};
use crate::sheet_in::sheet_in;
use crate::{argument, usage};
use calendar::{MOST_TEXT, write_calendar};
use dates::Stamp;
use stream::{Sheet, Stage, within};

// Word i behind the program's name as a number; none where it is no number.
fn number(rt: HostRuntime, i: usize) -> Option<u32> {
    let mut word = io::buffer();
    let n = argument(rt, i, &mut word);
    asks::number_of(&word[..n])
}

// The calendar of a sheet's board.
fn write(rt: HostRuntime, sheet: Sheet, origin: Stamp) {
    let plan = sheet.plan;
    let taken = sheet.taken;
    let board = taken.board;
    let mut room = [0u8; MOST_TEXT];
    match write_calendar(plan, board, origin, &mut room) {
        Ok(length) => {
            let n = within(length, &room);
            put(rt, Out::Output, &room[..n]);
        }
        Err(refusal) => say(rt, Out::Error, answers::calendar_refused(refusal.number)),
    }
}

// The calendar of the sheet that standard input holds.
fn calendar(rt: HostRuntime, origin: Stamp) {
    let sheet = sheet_in(rt.stdin());
    if sheet.stage != Stage::Playing {
        let taken = sheet.taken;
        return say(rt, Out::Error, text::plan_line(taken.number, taken.place));
    }
    write(rt, sheet, origin)
}

// The moment that the words behind the verb say; none where one of them is no number.
fn origin(rt: HostRuntime) -> Option<Stamp> {
    let year = number(rt, 2)?;
    let month = number(rt, 3)?;
    let day = number(rt, 4)?;
    let hour = number(rt, 5)?;
    let minute = number(rt, 6)?;
    Some(Stamp {
        year,
        month,
        day,
        hour,
        minute,
    })
}

pub(crate) fn run(rt: HostRuntime) {
    match origin(rt) {
        Some(origin) => calendar(rt, origin),
        None => usage(rt),
    }
}
