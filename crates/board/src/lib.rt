// The board: soundness and events. Document 01, "Board, windows, replies" and "Events"; specs/ states them in that order.
// `fresh`, `minute_of`, `is_sound`, `is_finished`, `take` and `take_all` take any plan, any board and any bytes and answer;
// `is_sound_by` and `is_finished_by` serve the crates `replies` and `verdict`; `take_from`, `after` and `answer` need no plan.

#![tactic(auto)]

ghost use Rattle.std.specs.Prelude.{◌≡◌};
ghost use Rattle.board.specs.Boards.{fresh};

mod event;
mod sound;
mod standing;
mod stream;

pub use event::{after, answer, take_from};
pub use links::{BEFORE_CLOCK, NOT_IN_TIME, NOT_RUNNING, RUN_OUT};
pub use sound::{is_sound, is_sound_by, minute_of};
pub use standing::{is_finished, is_finished_by};
pub use stream::SAID;
pub use windows::{ALL_DONE, IS_STUCK, NOT_FORMED, NOT_OPEN, TOO_EARLY, TOO_LATE};

// The reply numbers 20 to 30; 24 to 27 are those of `links`, the others from 21 on those of `windows`.
pub const UNSOUND: u32 = 20;

// The clock, the set of done points, a minute for each point, and the number of the event that did it, from 1. Points that
// are not done hold 0.
#[derive(Clone, Copy)]
pub struct Board {
    pub clock: u32,
    pub done: u32,
    pub minutes: [u32; ROOM],
    pub calls: [u32; ROOM],
}

// A place for each point.
pub const ROOM: usize = history::ROOM;

// What taking an event answers: a reply number with the record that it is about, and the next board.
// The rules ask for a number beside the board that is handed back, refused or not (`take_of`): so no Result.
#[derive(Clone, Copy)]
pub struct Taken {
    pub number: u32,
    pub place: u32,
    pub board: Board,
}

// A board on which nothing is done.
pub fn fresh() -> Board
    ensures { result ≡ fresh }
{
    Board {
        clock: 0,
        done: 0,
        minutes: [0u32; ROOM],
        calls: [0u32; ROOM],
    }
}
