// A stream of events: the plan and the board are tested once, and the events are taken one after the other. That the board
// after an event is sound again is a theorem, so it is not tested again.
ghost use Rattle.std.specs.Prelude.{◌≡◌, ◌*◌, ◌≤◌, ◌++◌, length, drop};
ghost use Rattle.plan.specs.Limits.{record_bytes};
ghost use Rattle.board.specs.Streams.{events_in, said_numbers, said_of, board_after_all, take_all_of, said_all_of};
ghost use Rattle.board.specs.InsideReplies.{Ready};

use crate::event::{answer, take_next};
use crate::sound::is_sound_by;
use crate::{Board, Taken, UNSOUND};
use events::put_four;
use links::{Links, links_by};
use plan::{ACCEPTED, Plan, RECORD_BYTES, check};

// What is said of an event: its number, the record beside it, and the clock and the done set of the board handed back.
pub const SAID: usize = 4;

// The first n events on a sound board of an accepted plan.
fn take_each(
    plan: Plan,
    board: Board,
    links: Links,
    events: &[u8],
    n: usize,
    room: &mut [u32],
) -> Board
    requires { Ready plan board links × (record_bytes * n ≤ length events.now) × (said_numbers * n ≤ length room.old) }
    ensures board { result ≡ board_after_all plan board (events_in n events.now) }
    ensures room { room.new ≡ said_of plan board (events_in n events.now) ++ drop (said_numbers * n) room.old }
{
    let mut now = board;
    for i in 0..n {
        let at = RECORD_BYTES * i;
        let taken = take_next(plan, now, links, &events[at..at + RECORD_BYTES]);
        now = taken.board;
        put_four(
            room,
            SAID * i,
            taken.number,
            taken.place,
            now.clock,
            now.done,
        );
    }
    now
}

impl Board {
    // Takes the whole events of some bytes one after the other, as far as there is room to say something of each.
    pub fn take_all(self, plan: Plan, events: &[u8], room: &mut [u32]) -> Taken
        ensures reply { result ≡ take_all_of plan self events.now room.old }
        ensures room { room.new ≡ said_all_of plan self events.now room.old }
    {
        let found = check(plan);
        if found.number != ACCEPTED {
            return answer(found.number, found.place, self);
        }
        let links = links_by(plan, true);
        if !is_sound_by(self, links) {
            return answer(UNSOUND, 0, self);
        }
        let n = (events.len() / RECORD_BYTES).min(room.len() / SAID);
        answer(ACCEPTED, 0, take_each(plan, self, links, events, n, room))
    }
}
