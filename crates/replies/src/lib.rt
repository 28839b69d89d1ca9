// The reply to a board: the first outcome that fits, for an offer the latest, and for an offer, a waiting and a stuck board a state
// for each point. Document 01, "Board, windows, replies", and document 02, §6. `reply_of` takes any plan and any board. `reply_from` answers without the plan, from any
// links and any windows; where they are an accepted plan's and a sound board's, its answer is the one from the plan's records (`proofs/ByPlan`).

#![tactic(auto)]

ghost use Rattle.std.specs.Prelude.{◌≡◌};
ghost use Rattle.replies.specs.Replies.{bare, reply_of};
ghost use Rattle.replies.specs.Numbers.{outcome_number, call_number};
ghost use Rattle.replies.specs.Inside.{state_from, list_from};
ghost use Rattle.replies.specs.ByWindows.{reply_by};

use board::{Board, ROOM, UNSOUND, is_finished_by, is_sound_by};
use history::first_points;
use links::{Links, links_by};
use plan::{ACCEPTED, Plan, check};
use planless::{latest_from, stuck_from};
use points::{MOST, has};
use windows::{Windows, windows_of};

// What is said of one point: done at a minute, watched, shut by a record (its number in the plan's file, 0 for none), held, or
// offered from its Low.
#[derive(Clone, Copy)]
pub enum State {
    Done(u32),
    Watched,
    Shut(u32),
    Held,
    Offered(u32),
}

// A point's place in a reply.
#[derive(Clone, Copy)]
pub struct Place {
    pub state: State,
}

// What a board is.
#[derive(Clone, Copy)]
pub enum Outcome {
    Refused(u32, u32),
    Finished,
    Stuck,
    Waiting,
    Offers,
}

// A reply: only an offer carries a latest minute; an offer, a waiting and a stuck board carry a list.
#[derive(Clone, Copy)]
pub struct Reply {
    pub outcome: Outcome,
    pub latest: u32,
    pub places: [Place; ROOM],
}

// A point's state. Where nothing is offered, an open point is held.
#[tactic(auto, unfolding(crate::specs::Inside::state_from))]
fn state_of(
    done: bool,
    minute: u32,
    watches: bool,
    opens: bool,
    holder: u32,
    offers: bool,
    latest: u32,
    low: u32,
) -> State
    ensures { result ≡ state_from done minute watches opens holder offers latest low }
{
    if done {
        return State::Done(minute);
    }
    if watches {
        return State::Watched;
    }
    if !opens {
        return State::Shut(holder);
    }
    if !offers | (latest < low) {
        return State::Held;
    }
    State::Offered(low)
}

// An outcome that carries nothing more.
pub fn nothing_more(outcome: Outcome) -> Reply
    ensures { result ≡ bare outcome }
{
    let shut = Place {
        state: State::Shut(0),
    };
    let places = [shut; ROOM];
    Reply {
        outcome,
        latest: 0,
        places,
    }
}

// An outcome with its list.
pub fn list(
    outcome: Outcome,
    board: Board,
    watches: u32,
    w: Windows,
    offers: bool,
    latest: u32,
) -> Reply
    ensures { result ≡ list_from outcome board watches w offers latest }
{
    let done = board.done;
    let minutes = board.minutes;
    let opens = w.opens;
    let holders = w.holders;
    let lows = w.lows;
    let shut = Place {
        state: State::Shut(0),
    };
    let mut places = [shut; ROOM];
    for p in 0..MOST {
        let at = p as usize;
        let state = state_of(
            has(done, p),
            minutes[at],
            has(watches, p),
            has(opens, p),
            holders[at],
            offers,
            latest,
            lows[at],
        );
        places[at] = Place { state };
    }
    Reply {
        outcome,
        latest,
        places,
    }
}

// The reply to a board of such windows: the first outcome that fits.
pub fn reply_from(links: Links, board: Board, w: Windows) -> Reply
    ensures { result ≡ reply_by links board w }
{
    if board.done == first_points(links.points) {
        return nothing_more(Outcome::Finished);
    }
    if stuck_from(links, board.done, w) {
        return list(Outcome::Stuck, board, links.watched, w, false, 0);
    }
    if w.opens == 0 {
        return list(Outcome::Waiting, board, links.watched, w, false, 0);
    }
    let latest = latest_from(board.clock, w.high);
    list(Outcome::Offers, board, links.watched, w, true, latest)
}

// What a board is: the plan's own refusal first, then 20, then the first outcome that fits.
pub fn reply_of(plan: Plan, board: Board) -> Reply
    ensures reply { result ≡ reply_of plan board }
    ensures number { outcome_number result.outcome ≡ call_number plan board }
{
    let found = check(plan);
    if found.number != ACCEPTED {
        return nothing_more(Outcome::Refused(found.number, found.place));
    }
    let links = links_by(plan, true);
    if !is_sound_by(board, links) {
        return nothing_more(Outcome::Refused(UNSOUND, 0));
    }
    if is_finished_by(board, links) {
        return nothing_more(Outcome::Finished);
    }
    let minutes = board.minutes;
    let w = windows_of(plan, links, board.clock, board.done, minutes);
    reply_from(links, board, w)
}
