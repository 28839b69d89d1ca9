// The closing verdict: the first record that is not kept, in file order. Document 01, "Verdict and plan test". `ended` and
// `verdict_of` take any plan and any board. The judges of one record work on plain numbers, any whatever; the pass over the
// records assumes a plan that is accepted.

#![tactic(auto)]

ghost use Rattle.std.specs.Prelude.{◌≡◌, ◌+◌, ◌-◌, min, leb};
ghost use Rattle.plan.specs.APlan.{records_of};
ghost use Rattle.plan.specs.ReplyNumbers.{check_of};
ghost use Rattle.links.specs.Inside.{LinksOf};
ghost use Rattle.verdict.specs.Verdicts.{first_broken, ended_of, verdict_of};
ghost use Rattle.verdict.specs.Numbers.{verdict_number};
ghost use Rattle.verdict.specs.Inside.{kept_at, ended_by};

use board::{Board, ROOM, UNSOUND, is_finished_by, is_sound_by};
use bounds::bound_kept;
use links::{Links, links_by};
use plan::{ACCEPTED, ORDINARY, Plan, Record, Refusal, WAIT, check, split, used};

// The reply number 31.
pub const NOT_ALL_DONE: u32 = 31;

// What the verdict is: a refusal, kept, or the number in the file of the first broken record.
// Three outcomes, each with its own values: so no Result.
#[derive(Clone, Copy)]
pub enum Verdict {
    Refused(u32, u32),
    Kept,
    Broken(u32),
}

// A wait of w for a point at the minute `at`, on a link from `from` to `to`, is kept.
fn wait_kept(from: u32, to: u32, w: u32, at: u32) -> bool
    ensures { result ≡ leb (from + min w (to - from)) at }
{
    from + w.min(to.saturating_sub(from)) <= at
}

// A record is kept: its points are at the minutes `at` and `to`, and the link that ends at its second one started at `from`.
fn is_kept(at: u32, to: u32, from: u32, r: Record) -> bool
    ensures { result ≡ kept_at at to from r }
{
    if r.kind == ORDINARY {
        return bound_kept(at, r.first, to);
    }
    if r.kind == WAIT {
        let gap = split(r.first);
        return wait_kept(from, to, gap.up, at);
    }
    true
}

// The first record that is not kept.
fn first_broken(plan: Plan, board: Board, links: Links) -> Verdict
    requires { ((check_of plan).number ≡ 0) × LinksOf (records_of plan) links }
    ensures { result ≡ first_broken (records_of plan) board 0 (records_of plan) }
{
    let n = used(plan.count);
    let minutes = board.minutes;
    let ends = links.ends;
    for i in 0..n {
        let r = plan.records[i];
        let a = r.a as usize % ROOM;
        let b = r.b as usize % ROOM;
        let end = ends[b];
        let from = end.from as usize % ROOM;
        if !is_kept(minutes[a], minutes[b], minutes[from], r) {
            return Verdict::Broken(i as u32);
        }
    }
    Verdict::Kept
}

// The plan's own refusal, then 20, then 31 where not all points are done; number 0 where there is something to judge.
pub fn ended(plan: Plan, board: Board) -> Refusal
    ensures { result ≡ ended_of plan board }
{
    let found = check(plan);
    if found.number != ACCEPTED {
        return found;
    }
    ended_by(board, links_by(plan, true))
}

// 20, then 31, by the links of an accepted plan.
pub fn ended_by(board: Board, links: Links) -> Refusal
    ensures { result ≡ ended_by links board }
{
    if !is_sound_by(board, links) {
        return Refusal::new(UNSOUND, 0);
    }
    if !is_finished_by(board, links) {
        return Refusal::new(NOT_ALL_DONE, 0);
    }
    Refusal::new(ACCEPTED, 0)
}

// The verdict on a finished board.
pub fn verdict_of(plan: Plan, board: Board) -> Verdict
    ensures verdict { result ≡ verdict_of plan board }
    ensures number { verdict_number result ≡ (ended_of plan board).number }
{
    let found = check(plan);
    if found.number != ACCEPTED {
        return Verdict::Refused(found.number, found.place);
    }
    let links = links_by(plan, true);
    let end = ended_by(board, links);
    if end.number != ACCEPTED {
        return Verdict::Refused(end.number, end.place);
    }
    first_broken(plan, board, links)
}
