// A board's reply and the taking of an event without the plan, from its links and from windows that are given. Takes any links,
// any board, any windows and any bytes. An inner room: `replies` and `board` do the work, and these are their answers under the
// names that callers knew before.

#![tactic(auto)]

ghost use Rattle.std.specs.Prelude.{◌≡◌};
ghost use Rattle.planless_board.specs.ByWindows.{reply_by, taken_by};

use board::{Board, Taken};
use links::Links;
use replies::Reply;
use windows::Windows;

// The reply to a board: the first outcome that fits.
pub fn reply_from(links: Links, board: Board, w: Windows) -> Reply
    ensures { result ≡ reply_by links board w }
{
    replies::reply_from(links, board, w)
}

// Takes an event: the next board, or a number with the record beside it and the same board.
pub fn take_from(links: Links, board: Board, w: Windows, event: &[u8]) -> Taken
    ensures { result ≡ taken_by links board w event.now }
{
    board::take_from(links, board, w, event)
}
