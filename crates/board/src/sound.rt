// When a board is sound for a plan, clause by clause, by any plan or by an accepted plan's links; and the minute of any point.
// Takes any plan, any links and any board.
ghost use Rattle.std.specs.Prelude.{◌≡◌};
ghost use Rattle.plan.specs.APlan.{records_of};
ghost use Rattle.board.specs.Boards.{minute, sound};
ghost use Rattle.board.specs.ByLinks.{sound_by};

use crate::Board;
use history::minute_at;
use links::{Links, links_of};
use plan::Plan;
use sounding::{by_links, by_records};

// The minute of a point; a point past the last place has 0.
pub fn minute_of(board: Board, p: u8) -> u32
    ensures { result ≡ minute board p }
{
    let minutes = board.minutes;
    minute_at(minutes, p)
}

pub fn is_sound(plan: Plan, board: Board) -> bool
    ensures { result ≡ sound (records_of plan) board }
{
    let links = links_of(plan);
    let minutes = board.minutes;
    let calls = board.calls;
    by_records(plan, links, board.clock, board.done, minutes, calls)
}

// The same from the links alone: of an accepted plan's links it is the plan's answer (`sound_by_lem`).
pub fn is_sound_by(board: Board, links: Links) -> bool
    ensures { result ≡ sound_by links board }
{
    let minutes = board.minutes;
    let calls = board.calls;
    by_links(links, board.clock, board.done, minutes, calls)
}
