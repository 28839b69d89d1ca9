// Plan files: the reader and the writer. Document 01, "Plan file" and "Reply numbers" 1 to 12; plan/specs states them. `read` and `write`
// take any bytes, any plan and any buffer and answer; neither asks anything of its caller.

#![tactic(auto)]

ghost use Rattle.std.specs.Prelude.{◌≡◌, [], ◌*◌, ◌≤◌, length};
ghost use Rattle.plan.specs.Limits.{most_records, record_bytes};
ghost use Rattle.plan.specs.APlan.{plan_of};
ghost use Rattle.plan.specs.PlanFile.{entries_in};
ghost use Rattle.plan.specs.ReplyNumbers.{first_bad, read_of, check_of, write_of, written_of};
ghost use Rattle.plan_file.specs.Inside.{records_in, first_odd, with_odd};

use plan::{
    ACCEPTED, MOST_RECORDS, NO_BYTES, NO_ROOM, NOT_WHOLE, NOT_ZERO, Plan, RECORD_BYTES, Refusal,
    TOO_LONG, check, empty, refuse,
};
use records::{put_records, record_in};

// The plan of the first `count` records of a file, as they stand there.
fn decode(bytes: &[u8], count: usize) -> Plan
    requires { (record_bytes * count ≤ length bytes.now) × (count ≤ most_records) }
    ensures { result ≡ plan_of (records_in count bytes.now) }
{
    let mut plan = empty(count);
    plan.count = count as u32;
    for i in 0..count {
        let at = RECORD_BYTES * i;
        plan.records[i] = record_in(&bytes[at..]);
    }
    plan
}

// The place of the first of a file's records whose byte 3 is not zero, or how many records there are.
fn first_odd(bytes: &[u8], count: usize) -> usize
    requires { record_bytes * count ≤ length bytes.now }
    ensures { result ≡ first_odd (entries_in count bytes.now) }
{
    for i in 0..count {
        if bytes[RECORD_BYTES * i + 3] != 0 {
            return i;
        }
    }
    count
}

// What is refused first, where `found` would be if every byte 3 were zero and the first that is not stands at the place `odd`:
// that record, with 7, unless an earlier one is refused or it is itself for what comes before 7.
fn with_odd(found: Refusal, odd: u32) -> Refusal
    ensures { result ≡ with_odd odd found }
{
    let sooner = (found.place < odd) | ((found.place == odd) & (found.number < NOT_ZERO));
    if (found.number != ACCEPTED) & sooner {
        found
    } else {
        Refusal::new(NOT_ZERO, odd)
    }
}

// The first bad record of a file, where `found` is what the check of its records' plan says.
fn first_bad(found: Refusal, bytes: &[u8], count: usize) -> Refusal
    requires { (record_bytes * count ≤ length bytes.now) × (1 ≤ count) × (count ≤ most_records) × (found ≡ check_of (plan_of (records_in count bytes.now))) }
    ensures { result ≡ first_bad [] (entries_in count bytes.now) }
{
    let odd = first_odd(bytes, count);
    if odd == count {
        return found;
    }
    with_odd(found, odd as u32)
}

// Reads a plan file: the plan, or the number and the first bad record.
pub fn read(bytes: &[u8]) -> Result<Plan, Refusal>
    ensures { result ≡ read_of bytes.now }
{
    let n = bytes.len();
    if n == 0 {
        return refuse(NO_BYTES, 0);
    }
    if n % RECORD_BYTES != 0 {
        return refuse(NOT_WHOLE, 0);
    }
    if MOST_RECORDS < n / RECORD_BYTES {
        return refuse(TOO_LONG, 0);
    }
    let count = n / RECORD_BYTES;
    let plan = decode(bytes, count);
    let found = first_bad(check(plan), bytes, count);
    if found.number != ACCEPTED {
        return Err(found);
    }
    Ok(plan)
}

// Writes a plan's file into the front of the buffer; a refusal changes no byte of it.
pub fn write(plan: Plan, out: &mut [u8]) -> Refusal
    ensures reply { result ≡ write_of plan out.old }
    ensures bytes { out.new ≡ written_of plan out.old }
{
    let found = check(plan);
    if found.number != ACCEPTED {
        return found;
    }
    if out.len() < RECORD_BYTES * (plan.count as usize) {
        return Refusal::new(NO_ROOM, 0);
    }
    let records = plan.records;
    put_records(records, plan.count as usize, out);
    found
}
