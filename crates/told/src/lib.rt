// The plan test's answer, a verdict and the worst minute as numbers in a lent room, for programs in other languages. A refusal leaves the room as
// it was. An inner room: it serves `ponds`.

#![tactic(auto)]

ghost use Rattle.std.specs.Prelude.{◌≡◌, [], ◌∷◌};
ghost use Rattle.told.specs.Told.{test_answer, test_room, verdict_answer, verdict_room, worst_answer, worst_room};

use halves::answer;
use plan::Refusal;
use vee::Answer;
use verdict::Verdict;
use worst::Found;

// Two numbers into a room, and 0.
fn two(room: &mut [u32; 2], a: u32, b: u32) -> u64
    ensures reply { result ≡ 0 }
    ensures room { room.new ≡ a ∷ b ∷ [] }
{
    *room = [a, b];
    0
}

// Four numbers into a room, and 0.
fn four(room: &mut [u32; 4], a: u32, b: u32, c: u32, d: u32) -> u64
    ensures reply { result ≡ 0 }
    ensures room { room.new ≡ a ∷ b ∷ c ∷ d ∷ [] }
{
    *room = [a, b, c, d];
    0
}

// The plan test's answer: 0 for yes, 1 for a cycle, 2 for a pair; how many projections were tried or which one fails; the pair.
pub fn tell_test(found: Answer, room: &mut [u32; 4]) -> u64
    ensures reply { result ≡ test_answer found }
    ensures room { room.new ≡ test_room found room.old }
{
    match found {
        Answer::Refused(number, place) => answer(number, place),
        Answer::Yes(k) => four(room, 0, k, 0, 0),
        Answer::Cycle(i) => four(room, 1, i, 0, 0),
        Answer::Pair(i, x, y) => four(room, 2, i, x, y),
    }
}

// A verdict: 0 for kept, 1 for broken, and the broken record.
pub fn tell_verdict(found: Verdict, room: &mut [u32; 2]) -> u64
    ensures reply { result ≡ verdict_answer found }
    ensures room { room.new ≡ verdict_room found room.old }
{
    match found {
        Verdict::Refused(number, place) => answer(number, place),
        Verdict::Kept => two(room, 0, 0),
        Verdict::Broken(i) => two(room, 1, i),
    }
}

// The worst finishing minute, and the projection that reaches it.
pub fn tell_worst(found: Result<Found, Refusal>, room: &mut [u32; 2]) -> u64
    ensures reply { result ≡ worst_answer found }
    ensures room { room.new ≡ worst_room found room.old }
{
    match found {
        Err(refusal) => answer(refusal.number, refusal.place),
        Ok(found) => two(room, found.minute, found.projection),
    }
}
