// The lines that the programs print, as proved text: which words and numbers each line has. How a line is spelt is `lines`.
// Document 01, "The printing program".

#![tactic(auto)]

ghost use Rattle.std.specs.Prelude.{◌≡◌};
ghost use Rattle.text.specs.Lines.{plan_line, event_line, reply_line, test_line, board_line, point_line, tail_line, verdict_line, end_line, numbers_line};

mod shut;

use board::{Board, Taken};
pub use lines::{Line, ROOM, blank};
use lines::{four, number, numbers, pair, state, state_at, three, two, word, words};
use plan::{Plan, Record};
use replies::{Outcome, Place, Reply, State};
use shut::shut_line;
pub use shut::signed;
use vee::Answer;
use verdict::Verdict;

// The words of the lines: the ASCII codes of their letters, the first in the lowest byte.
const PLAN: u64 = 0x6e616c70;

const TAIL: u64 = 0x6c696174;

const END: u64 = 0x646e65;

const KEPT: u64 = 0x7470656b;

const BROKEN: u64 = 0x6e656b6f7262;

const STUCK: u64 = 0x6b63757473;

const OPEN: u64 = 0x6e65706f;

const TEST: u64 = 0x74736574;

const YES: u64 = 0x736579;

const CYCLE: u64 = 0x656c637963;

const PAIR: u64 = 0x72696170;

const EVENT: u64 = 0x746e657665;

const BOARD: u64 = 0x6472616f62;

const FINISHED: u64 = 0x64656873696e6966;

const WAITING: u64 = 0x676e6974696177;

const OFFERS: u64 = 0x73726566666f;

const POINT: u64 = 0x746e696f70;

const DONE: u64 = 0x656e6f64;

const WATCHED: u64 = 0x64656863746177;

const SHUT: u64 = 0x74756873;

const HELD: u64 = 0x646c6568;

const OFFERED: u64 = 0x6465726566666f;

const REFUSED: u64 = 0x64657375666572;

// `plan NUMBER RECORD`: a refused plan.
pub fn plan_line(number: u32, place: u32) -> Line
    ensures { result ≡ plan_line number place }
{
    numbers(PLAN, number as u64, place as u64)
}

// Four numbers.
pub fn numbers_line(a: u64, b: u32, c: u32, d: u32) -> Line
    ensures { result ≡ numbers_line a b c d }
{
    four(a, b, c, d)
}

// `EVENT NUMBER CLOCK COUNT`: an event, its reply number, the clock and the count of done points of the board handed back.
pub fn event_line(event: u64, taken: Taken) -> Line
    ensures { result ≡ event_line event taken }
{
    let board = taken.board;
    let count = points::count(board.done);
    numbers_line(event, taken.number, board.clock, count)
}

// `event K NUMBER`: an event and its reply number, and the record that it names, if it names one.
pub fn reply_line(event: u64, number: u32, place: u32) -> Line
    ensures { result ≡ reply_line event number place }
{
    if place == 0 {
        return numbers(EVENT, event, number as u64);
    }
    three(EVENT, event, number, place)
}

// What the plan test answers: `test yes N`, `test cycle P`, `test pair P X Y`, or `test NUMBER`.
pub fn test_line(answer: Answer) -> Line
    ensures { result ≡ test_line answer }
{
    match answer {
        Answer::Yes(tried) => words(TEST, YES, tried),
        Answer::Cycle(projection) => words(TEST, CYCLE, projection),
        Answer::Pair(projection, x, y) => pair(TEST, PAIR, projection, x, y),
        Answer::Refused(n, _) => number(TEST, n),
    }
}

// `board CLOCK COUNT` and what the board is, then the latest of an offer or the number of a refusal.
pub fn board_line(board: Board, reply: Reply) -> Line
    ensures { result ≡ board_line board reply }
{
    let clock = board.clock;
    let ones = points::count(board.done);
    match reply.outcome {
        Outcome::Finished => state(BOARD, clock, ones, FINISHED),
        Outcome::Stuck => state(BOARD, clock, ones, STUCK),
        Outcome::Waiting => state(BOARD, clock, ones, WAITING),
        Outcome::Offers => state_at(BOARD, clock, ones, OFFERS, reply.latest),
        Outcome::Refused(number, _) => state_at(BOARD, clock, ones, REFUSED, number),
    }
}

// `point I POND` and what a reply says of the point, with the minute where it has one, or the record that keeps it shut: its number,
// which the reply has, and `reason`, the record itself.
pub fn point_line(point: u32, pond: u32, place: Place, reason: Record) -> Line
    ensures { result ≡ point_line point pond place reason }
{
    match place.state {
        State::Done(minute) => state_at(POINT, point, pond, DONE, minute),
        State::Watched => state(POINT, point, pond, WATCHED),
        State::Shut(n) => shut_line(point, pond, n, reason),
        State::Held => state(POINT, point, pond, HELD),
        State::Offered(low) => state_at(POINT, point, pond, OFFERED, low),
    }
}

// `tail`: an unfinished last record.
pub fn tail_line() -> Line
    ensures { result ≡ tail_line }
{
    word(TAIL)
}

// The verdict on a finished board: `end kept` or `end broken N`.
fn verdict_line(verdict: Verdict) -> Line
    ensures { result ≡ verdict_line verdict }
{
    match verdict {
        Verdict::Kept => two(END, KEPT),
        Verdict::Broken(place) => words(END, BROKEN, place),
        Verdict::Refused(_, _) => two(END, OPEN),
    }
}

// How a sheet ends: `end kept`, `end broken N`, `end stuck` or `end open`.
pub fn end_line(plan: Plan, board: Board) -> Line
    ensures { result ≡ end_line plan board }
{
    let reply = replies::reply_of(plan, board);
    match reply.outcome {
        Outcome::Finished => verdict_line(verdict::verdict_of(plan, board)),
        Outcome::Stuck => two(END, STUCK),
        Outcome::Waiting | Outcome::Offers | Outcome::Refused(_, _) => two(END, OPEN),
    }
}
