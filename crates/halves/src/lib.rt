// An answer as one number of 64 bits, for programs in other languages: the reply number in the lower half, and what stands beside it in the
// upper half. An inner room: it serves `told`, `filed` and the others up to `ponds`, which also take from here what is answered of a plan file.

#![tactic(auto)]

ghost use Rattle.std.specs.Prelude.{◌≡◌};
ghost use Rattle.halves.specs.Answers.{answer_of, answer_with, half_of};

use plan::ACCEPTED;

// What the upper half is counted in, and the largest number of a half.
const UPPER: u64 = 4294967296;

const LARGEST: u32 = 4294967295;

// An answer: the reply number in the lower half, and what stands beside it in the upper half.
pub fn answer(number: u32, beside: u32) -> u64
    ensures { result ≡ answer_of number beside }
{
    number as u64 + UPPER * (beside as u64)
}

// An answer with the record of a refusal, or with what is told where nothing is refused.
pub fn answer_with(number: u32, place: u32, told: u32) -> u64
    ensures { result ≡ answer_with number place told }
{
    if number == ACCEPTED {
        answer(number, told)
    } else {
        answer(number, place)
    }
}

// A number as far as a half holds it.
pub fn half(n: usize) -> u32
    ensures { result ≡ half_of n }
{
    if n < LARGEST as usize {
        n as u32
    } else {
        LARGEST
    }
}
