// Taking an event: the numbers 21 to 30 in order, with the record beside 28, and the board after it. An event's bytes may be any, of any length.
ghost use Rattle.std.specs.Prelude.{◌≡◌, true};
ghost use Rattle.plan.specs.APlan.{records_of};
ghost use Rattle.board.specs.Boards.{sound};
ghost use Rattle.board.specs.Events.{taken, take_of};
ghost use Rattle.board.specs.Inside.{after_event, taken_next};
ghost use Rattle.board.specs.ByWindows.{taken_by, SetFits};
ghost use Rattle.board.specs.InsideReplies.{Ready};

use crate::sound::is_sound_by;
use crate::{Board, Taken, UNSOUND};
use events::Event;
use links::{Links, links_by};
use plan::{ACCEPTED, Plan, check};
use taking::{Marks, step_from};
use windows::{Windows, windows_of};

// The board after an event of number n.
pub fn after(board: Board, e: Event, n: u32) -> Board
    ensures { result ≡ after_event board e n }
{
    let minutes = board.minutes;
    let calls = board.calls;
    let marks = Marks {
        done: board.done,
        minutes,
        calls,
    };
    let next = taking::after(marks, e, n);
    let minutes_then = next.minutes;
    let calls_then = next.calls;
    Board {
        clock: e.minute,
        done: next.done,
        minutes: minutes_then,
        calls: calls_then,
    }
}

pub fn answer(number: u32, place: u32, board: Board) -> Taken
    ensures { result ≡ taken number place board }
{
    Taken {
        number,
        place,
        board,
    }
}

// One event, from the plan's links and the windows of the board before it: the next board, or a number with the record beside it
// and the same board.
pub fn take_from(links: Links, board: Board, w: Windows, event: &[u8]) -> Taken
    ensures taken { result ≡ taken_by links board w event.now }
    ensures set { SetFits links board w event.now }
{
    let minutes = board.minutes;
    let calls = board.calls;
    let marks = Marks {
        done: board.done,
        minutes,
        calls,
    };
    let step = step_from(links, board.clock, marks, w, event);
    let next = step.marks;
    let minutes_then = next.minutes;
    let calls_then = next.calls;
    Taken {
        number: step.number,
        place: step.place,
        board: Board {
            clock: step.clock,
            done: next.done,
            minutes: minutes_then,
            calls: calls_then,
        },
    }
}

// One event on a sound board of an accepted plan.
pub(crate) fn take_next(plan: Plan, board: Board, links: Links, event: &[u8]) -> Taken
    requires { Ready plan board links }
    ensures { (result ≡ taken_next (records_of plan) board event.now) × (sound (records_of plan) result.board ≡ true) }
{
    let minutes = board.minutes;
    let w = windows_of(plan, links, board.clock, board.done, minutes);
    take_from(links, board, w, event)
}

impl Board {
    // Takes an event: the next board, or a number and the same board.
    pub fn take(self, plan: Plan, event: &[u8]) -> Taken
        ensures { result ≡ take_of plan self event.now }
    {
        let found = check(plan);
        if found.number != ACCEPTED {
            return answer(found.number, found.place, self);
        }
        let links = links_by(plan, true);
        if !is_sound_by(self, links) {
            return answer(UNSOUND, 0, self);
        }
        let minutes = self.minutes;
        let w = windows_of(plan, links, self.clock, self.done, minutes);
        take_from(links, self, w, event)
    }
}
