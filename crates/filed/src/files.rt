// A plan file checked and tested, and its worst finishing minute with the day behind it.
ghost use Rattle.std.specs.Prelude.{◌≡◌};
ghost use Rattle.filed.specs.Files.{check_answer, test_file, worst_file, day_file, day_left};

use halves::answer;
use plan::{ACCEPTED, Refusal};
use plan_file::read;
use vee::{Answer, test};
use worst::{Found, day_of, worst_of};

// The reader's own refusal with its record, or 0 with how many records there are.
pub fn check_file(file: &[u8]) -> u64
    ensures { result ≡ check_answer file.now }
{
    match read(file) {
        Ok(plan) => answer(ACCEPTED, plan.count),
        Err(refusal) => answer(refusal.number, refusal.place),
    }
}

// The plan test.
pub fn test_file(file: &[u8]) -> Answer
    ensures { result ≡ test_file file.now }
{
    match read(file) {
        Ok(plan) => test(plan),
        Err(refusal) => Answer::Refused(refusal.number, refusal.place),
    }
}

// The worst finishing minute.
pub fn worst_file(file: &[u8]) -> Result<Found, Refusal>
    ensures { result ≡ worst_file file.now }
{
    // by `match`: with `?` the call takes 10 KB more of the stack
    match read(file) {
        Ok(plan) => worst_of(plan),
        Err(refusal) => Err(refusal),
    }
}

// The day of a projection, at the front of the buffer.
pub fn day_file(file: &[u8], projection: u32, out: &mut [u8]) -> Result<u32, Refusal>
    ensures reply { result ≡ day_file file.now projection out.old }
    ensures bytes { out.new ≡ day_left file.now projection out.old }
{
    match read(file) {
        Ok(plan) => day_of(plan, projection, out),
        Err(refusal) => Err(refusal),
    }
}
