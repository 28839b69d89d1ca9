// Boards and replies as numbers in a room, and the engine's board from one, whatever it holds.
ghost use Rattle.std.specs.Prelude.{◌≡◌, ◌+◌, ◌≤◌};
ghost use Rattle.std.proofs.Math.Seq.{paste};
ghost use Rattle.plan.specs.Limits.{most_points};
ghost use Rattle.hulls.specs.Rooms.{board_in, board_room, board_length, outcome_code, state_code, state_value, reply_room};

use board::{Board, ROOM};
use engine::{KEPT, board_of};
use replies::{Outcome, Reply, State};

// How many numbers a board and a reply are.
pub const BOARD: usize = 2 + 2 * ROOM;

pub const REPLY: usize = 2 + 2 * ROOM;

// The board that an engine's room holds.
pub fn board_in(kept: &[u32; KEPT]) -> Board
    ensures { result ≡ board_in kept.now }
{
    board_of(kept)
}

// A room with a number for each point, from a place on.
fn with_table(before: [u32; BOARD], at: usize, table: [u32; ROOM]) -> [u32; BOARD]
    requires { at + most_points ≤ board_length }
    ensures { result ≡ paste before at table most_points }
{
    let mut room = before;
    for q in 0..ROOM {
        room[at + q] = table[q];
    }
    room
}

// A board as the numbers of a room.
pub fn board_room(board: Board) -> [u32; BOARD]
    ensures { result ≡ board_room board }
{
    let minutes = board.minutes;
    let calls = board.calls;
    let mut room = [0u32; BOARD];
    room[0] = board.clock;
    room[1] = board.done;
    with_table(with_table(room, 2, minutes), 2 + ROOM, calls)
}

fn outcome_code(outcome: Outcome) -> u32
    ensures { result ≡ outcome_code outcome }
{
    match outcome {
        Outcome::Refused(number, place) => number,
        Outcome::Finished => 0,
        Outcome::Stuck => 1,
        Outcome::Waiting => 2,
        Outcome::Offers => 3,
    }
}

fn state_code(state: State) -> u32
    ensures { result ≡ state_code state }
{
    match state {
        State::Done(minute) => 0,
        State::Watched => 1,
        State::Shut(i) => 2,
        State::Held => 3,
        State::Offered(low) => 4,
    }
}

fn state_value(state: State) -> u32
    ensures { result ≡ state_value state }
{
    match state {
        State::Done(minute) => minute,
        State::Watched => 0,
        State::Shut(i) => i,
        State::Held => 0,
        State::Offered(low) => low,
    }
}

// A reply as the numbers of a room.
pub fn reply_room(reply: Reply) -> [u32; REPLY]
    ensures { result ≡ reply_room reply }
{
    let places = reply.places;
    let outcome = reply.outcome;
    let mut room = [0u32; REPLY];
    room[0] = outcome_code(outcome);
    room[1] = reply.latest;
    for q in 0..ROOM {
        let p = places[q];
        let state = p.state;
        let at = 2 + 2 * q;
        room[at] = state_code(state);
        room[at + 1] = state_value(state);
    }
    room
}
