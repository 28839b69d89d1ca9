// Plans by value: the check of a plan, and what later crates look up in one. Document 01, "A plan", "Plan file" and "Reply numbers"
// 1 to 12; specs/ states them in that order, the reader and the writer of plan files too, whose code is `plan_file`. Records, the rules for one
// record and signed numbers come from the rooms below, `records`, `rules` and `numbers`, and what callers need of them is
// handed on here. Every open function takes any plan and answers; none asks anything of its caller.

#![tactic(auto)]

ghost use Rattle.std.specs.Prelude.{◌≡◌, [], min};
ghost use Rattle.plan.specs.Limits.{most_records};
ghost use Rattle.plan.specs.APlan.{plan_of, records_of, how_many, points, links, ends_at, watched, place_of};
ghost use Rattle.plan.specs.Inside.{of_byte};
ghost use Rattle.plan.specs.ReplyNumbers.{check_of, plan_in, refusal, refused};

pub use numbers::{Gap, split};
use records::blanks;
pub use records::{
    FARTHEST, LINK, MOST_LINKS, MOST_ORDINARY, MOST_POINTS, MOST_RECORDS, MOST_WAITS, ORDINARY,
    POINT, RECORD_BYTES, Record, WAIT,
};
pub use rules::{
    ACCEPTED, KIND_FALLS, NOT_JOINED, NOT_NAMED, NOT_ZERO, OUT_OF_BOUNDS, SAME_POINT, TOO_MANY,
    TWIN, UNKNOWN_KIND,
};
use rules::{Ending, Seen, ending_after, number_in, seconds_after};

// A place for each point, in arrays.
const POINT_ROOM: usize = MOST_POINTS as usize;

// The reply numbers of whole files and buffers; those of one record, 4 to 11 and 15, and 0 for what is not refused are those of
// `rules`.
pub const NO_BYTES: u32 = 1;

pub const NOT_WHOLE: u32 = 2;

pub const TOO_LONG: u32 = 3;

pub const NO_ROOM: u32 = 12;

// A plan is its first `count` records, in file order. What stands in the room after them counts for nothing.
// A room with its length beside it: the project has no heap.
#[derive(Clone, Copy)]
pub struct Plan {
    pub count: u32,
    pub records: [Record; MOST_RECORDS],
}

// A reply number and the record that it is about; number 0 where nothing is refused.
// `check_of` answers one for every plan, and the theorems speak of its number 0: so no Result.
#[derive(Clone, Copy)]
pub struct Refusal {
    pub number: u32,
    pub place: u32,
}

// A plan without records, all its room zero, whatever number is handed in (`blanks` of `records`).
pub fn empty(any: usize) -> Plan
    ensures { result ≡ plan_of [] }
{
    let records = blanks(any);
    Plan { count: 0, records }
}

// What reading answers where it refuses.
pub fn refuse(number: u32, place: u32) -> Result<Plan, Refusal>
    ensures { result ≡ refused (refusal number place) }
{
    Err(Refusal::new(number, place))
}

// The plan that was read, for who goes on with one either way: where reading refused, no record of the file is shown.
pub fn plan_in(reading: Result<Plan, Refusal>) -> Plan
    ensures { result ≡ plan_in reading }
{
    match reading {
        Ok(plan) => plan,
        Err(_) => empty(0),
    }
}

impl Refusal {
    // A number and the record that it is about.
    pub fn new(number: u32, place: u32) -> Refusal
        ensures { result ≡ refusal number place }
    {
        Refusal { number, place }
    }
}

// What reading a plan's records would give: the records in file order, the first bad one's number and place.
pub fn check(plan: Plan) -> Refusal
    ensures { result ≡ check_of plan }
{
    if plan.count == 0 {
        return Refusal::new(NO_BYTES, 0);
    }
    if MOST_RECORDS < plan.count as usize {
        return Refusal::new(TOO_LONG, 0);
    }
    let count = plan.count as usize;
    let mut seen = Seen::none();
    let nothing = Ending {
        from: 0,
        longest: 0,
    };
    let mut ends = [nothing; POINT_ROOM];
    let mut seconds = [0u32; POINT_ROOM];
    for i in 0..count {
        let r = plan.records[i];
        let c = r.b as usize % POINT_ROOM;
        let end = ends[c];
        let a = r.a as usize % POINT_ROOM;
        let led = seconds[a];
        let one = seen.read_one(r, 0, end, led);
        let Ok(next) = one else {
            return Refusal::new(number_in(one), i as u32);
        };
        seen = next;
        if r.kind == ORDINARY {
            seconds[a] = seconds_after(r, led);
            continue;
        }
        ends[c] = ending_after(r, end);
    }
    Refusal::new(ACCEPTED, 0)
}

// How many records of a plan there are, as far as it has room.
pub fn used(count: u32) -> usize
    ensures { result ≡ min count most_records }
{
    MOST_RECORDS.min(count as usize)
}

// How many records of a kind a plan has.
fn count_of(plan: Plan, kind: u8) -> u32
    ensures { result ≡ how_many (of_byte kind) (records_of plan) }
{
    let count = used(plan.count);
    let mut n: u32 = 0;
    for i in 0..count {
        let r = plan.records[i];
        n += u32::from(r.kind == kind);
    }
    n
}

// How many points a plan has.
pub fn points_of(plan: Plan) -> u32
    ensures { result ≡ points (records_of plan) }
{
    count_of(plan, POINT)
}

// How many links a plan has.
pub fn links_of(plan: Plan) -> u32
    ensures { result ≡ links (records_of plan) }
{
    count_of(plan, LINK)
}

// The link that ends at a point, by its number in the file.
pub fn link_to(plan: Plan, p: u8) -> Option<u32>
    ensures { result ≡ place_of (ends_at p) (records_of plan) }
{
    let count = used(plan.count);
    for i in 0..count {
        let r = plan.records[i];
        if (r.kind == LINK) & (p == r.b) {
            return Some(i as u32);
        }
    }
    None
}

// Whether a point is watched.
pub fn is_watched(plan: Plan, p: u8) -> bool
    ensures { result ≡ watched (records_of plan) p }
{
    link_to(plan, p).is_some()
}
