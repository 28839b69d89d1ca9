// The verdict over a lent list of ordinary constraints, each two points and a bound. Document 01, "Verdict and plan test".
// `judge` takes the list as it is lent, a slice of structs: it goes down the list and leaves the work to functions on plain
// values. `judge_list` lends it one. Every open function takes any plan, any board and any list and answers.

#![tactic(auto)]

ghost use Rattle.std.specs.Prelude.{◌≡◌, min, take};
ghost use Rattle.lent.specs.Judgement.{judge_of};
ghost use Rattle.lent.specs.Inside.{begun_of, is_refused, answer_after, judged_after, list_room};

use board::{Board, minute_of};
pub use bounds::Bound;
use bounds::{both_in, bound_kept};
use plan::{ACCEPTED, NOT_NAMED, Plan, points_of};
use verdict::ended;

// How many bounds a list by value has room for.
pub const LIST_ROOM: usize = 4096;

// What judging a list answers: a reply number with the place that it is about, kept, or the place of the first broken
// bound. Places in the list are counted from 0.
// Three outcomes, each with its own values: so no Result.
#[derive(Clone, Copy)]
pub enum Judged {
    Refused(u32, usize),
    Kept,
    Broken(usize),
}

// The answer by the bounds passed so far, and what a bound is judged by: how many points the plan has, and the board.
#[derive(Clone, Copy)]
struct Judging {
    answer: Judged,
    points: u32,
    board: Board,
}

// Before the first bound: the plan's own refusal, 20 or 31, or kept.
fn begun(plan: Plan, board: Board) -> Judging
    ensures { result ≡ begun_of plan board }
{
    let points = points_of(plan);
    let found = ended(plan, board);
    if found.number != ACCEPTED {
        return Judging {
            answer: Judged::Refused(found.number, found.place as usize),
            points,
            board,
        };
    }
    Judging {
        answer: Judged::Kept,
        points,
        board,
    }
}

// A refusal stays, whatever bounds come.
fn is_refused(answer: Judged) -> bool
    ensures { result ≡ is_refused answer }
{
    match answer {
        Judged::Refused(_, _) => true,
        Judged::Kept | Judged::Broken(_) => false,
    }
}

// The answer with one bound more, at the place i, of which is said whether its points are in the plan and whether it is
// kept. A point that is not in the plan comes before every broken bound.
fn answer_after(answer: Judged, i: usize, named: bool, kept: bool) -> Judged
    ensures { result ≡ answer_after answer i named kept }
{
    match answer {
        Judged::Refused(number, place) => Judged::Refused(number, place),
        Judged::Kept => {
            if !named {
                return Judged::Refused(NOT_NAMED, i);
            }
            if kept {
                Judged::Kept
            } else {
                Judged::Broken(i)
            }
        }
        Judged::Broken(place) => {
            if named {
                Judged::Broken(place)
            } else {
                Judged::Refused(NOT_NAMED, i)
            }
        }
    }
}

fn judged_after(past: Judging, i: usize, b: Bound) -> Judging
    ensures { result ≡ judged_after past i b }
{
    let answer = past.answer;
    let board = past.board;
    let from = minute_of(board, b.from);
    let to = minute_of(board, b.to);
    let named = both_in(past.points, b.from, b.to);
    let kept = bound_kept(from, b.bound, to);
    Judging {
        answer: answer_after(answer, i, named, kept),
        points: past.points,
        board,
    }
}

// The plan's own refusal, 20 and 31; then 8 for the first bound that names a point not in the plan; then kept, or the
// first broken one.
pub fn judge(plan: Plan, board: Board, list: &[Bound]) -> Judged
    ensures { result ≡ judge_of plan board list.now }
{
    let mut so_far = begun(plan, board);
    for (i, bound) in list.iter().enumerate() {
        if is_refused(so_far.answer) {
            break;
        }
        so_far = judged_after(so_far, i, *bound);
    }
    so_far.answer
}

// How many of a list's bounds count, where `count` of them are said to.
fn listed(count: usize) -> usize
    ensures { result ≡ min count list_room }
{
    count.min(LIST_ROOM)
}

// The same of the first `count` bounds of a list by value: it lends them to `judge`.
pub fn judge_list(plan: Plan, board: Board, list: [Bound; LIST_ROOM], count: usize) -> Judged
    ensures { result ≡ judge_of plan board (take count list) }
{
    let n = listed(count);
    judge(plan, board, &list[..n])
}
