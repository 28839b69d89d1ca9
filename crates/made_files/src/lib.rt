// Plans that are made of a plan file or of a text, given as bytes, and their files in a lent buffer: imported, closed, lighter; or the refusal of
// what was given. It takes any bytes and any rooms. An inner room: it serves `ponds`. Nothing is asked of a caller.

#![tactic(auto)]

ghost use Rattle.std.specs.Prelude.{◌≡◌, if◌then◌else◌};
ghost use Rattle.plan.specs.ReplyNumbers.{plan_in as plan_read};
ghost use Rattle.made_files.specs.Made.{imported_as, import_text, close_file, filed_of, file_left, filed_answer, plan_in, dropped_left, LighterWritten};

use closure::close;
use halves::{answer, answer_with, half};
use lighter::{Lighter, lighter_of};
use office::{Refused, import};
use plan::{ACCEPTED, MOST_RECORDS, Plan, Refusal, refuse};
use plan_file::{read, write};

// A plan that was made, written into the buffer; one that was refused leaves it as it was.
fn file_plan(made: Result<Plan, Refusal>, out: &mut [u8]) -> Refusal
    ensures reply { result ≡ filed_of made out.old }
    ensures bytes { out.new ≡ file_left made out.old }
{
    match made {
        Ok(plan) => write(plan, out),
        Err(refusal) => refusal,
    }
}

// How many records a plan that was made has.
fn count_in(made: Result<Plan, Refusal>) -> u32
    ensures { result ≡ (plan_read made).count }
{
    match made {
        Ok(plan) => plan.count,
        Err(_) => 0,
    }
}

// A plan that was made, written as `file_plan` does; answers 0 with how many records there are, or the refusal.
pub fn put_plan(made: Result<Plan, Refusal>, out: &mut [u8]) -> u64
    ensures reply { result ≡ filed_answer made out.old }
    ensures bytes { out.new ≡ file_left made out.old }
{
    let filed = file_plan(made, out);
    answer_with(filed.number, filed.place, count_in(made))
}

fn imported_as(text: Result<Plan, Refused>) -> Result<Plan, Refusal>
    ensures { result ≡ imported_as text }
{
    match text {
        Ok(plan) => Ok(plan),
        Err(refused) => refuse(refused.number, half(refused.line)),
    }
}

// The plan that a comma-separated text says.
pub fn import_text(text: &[u8]) -> Result<Plan, Refusal>
    ensures { result ≡ import_text text.now }
{
    imported_as(import(text))
}

// The plan with every distance as a record.
pub fn close_file(file: &[u8]) -> Result<Plan, Refusal>
    ensures { result ≡ close_file file.now }
{
    close(read(file)?)
}

// The numbers of the records that went into their room, where so.
fn put_dropped(so: bool, numbers: [u32; MOST_RECORDS], room: &mut [u32; MOST_RECORDS])
    ensures { room.new ≡ (if so then numbers else room.old) }
{
    if so {
        *room = numbers;
    }
}

fn put_lighter(made: Lighter, out: &mut [u8], room: &mut [u32; MOST_RECORDS]) -> u64
    ensures reply { result ≡ filed_answer (plan_in made) out.old }
    ensures bytes { out.new ≡ file_left (plan_in made) out.old }
    ensures dropped { room.new ≡ dropped_left made out.old room.old }
{
    let plan = made.plan;
    let filed = write(plan, out);
    let numbers = made.dropped;
    put_dropped(filed.number == ACCEPTED, numbers, room);
    answer_with(filed.number, filed.place, plan.count)
}

// The lighter plan's file, and the numbers of the records that went.
pub fn lighter_file(file: &[u8], out: &mut [u8], room: &mut [u32; MOST_RECORDS]) -> u64
    ensures { LighterWritten file.now out.old room.old result out.new room.new }
{
    match read(file) {
        Ok(plan) => match lighter_of(plan) {
            Ok(made) => put_lighter(made, out, room),
            Err(refusal) => answer(refusal.number, refusal.place),
        },
        Err(refusal) => answer(refusal.number, refusal.place),
    }
}
