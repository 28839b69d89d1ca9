// The links of a plan by the points that they end at, found in one pass over its records: which points are watched, and
// of the link that ends at each, its A, its x and its y; and how many points there are. Takes any plan; of two links to one point the first counts, and
// a link to a point past the last place is passed over. An inner room: it serves `board` and the crates around it.

#![tactic(auto)]

ghost use Rattle.std.specs.Prelude.{◌≡◌};
ghost use Rattle.plan.specs.APlan.{records_of};
ghost use Rattle.links.specs.Inside.{watched_after, end_after, Known, LinksOf};

mod sets;

use history::ROOM;
use plan::{LINK, POINT, Plan, Record, split, used};
use points::{MOST, has, with};
pub use sets::{all_in_time, all_running};

// The reply numbers 24 to 27.
pub const BEFORE_CLOCK: u32 = 24;

pub const NOT_RUNNING: u32 = 25;

pub const NOT_IN_TIME: u32 = 26;

pub const RUN_OUT: u32 = 27;

// Of the link that ends at a point, its A, its x and its y.
#[derive(Clone, Copy)]
pub struct End {
    pub from: u8,
    pub shortest: u32,
    pub longest: u32,
}

// The watched points, and the link of each; and how many points the plan has, so that who has the links need not count them.
#[derive(Clone, Copy)]
pub struct Links {
    pub points: u32,
    pub watched: u32,
    pub ends: [End; ROOM],
}

// The watched points with a record more.
fn watched_after(r: Record, watched: u32) -> u32
    ensures { result ≡ watched_after r watched }
{
    if r.kind == LINK {
        with(watched, r.b)
    } else {
        watched
    }
}

// What the place of a record's second point holds with that record, `end` before it.
fn end_after(r: Record, watched: u32, end: End) -> End
    ensures { result ≡ end_after r watched end }
{
    if (r.kind == LINK) & ((r.b < MOST) & !has(watched, r.b)) {
        let x = split(r.first);
        let y = split(r.second);
        End {
            from: r.a,
            shortest: x.up,
            longest: y.up,
        }
    } else {
        end
    }
}

// The links of a plan. Where it is known to be accepted, no record behind the first that is neither a point nor a link is one.
pub fn links_by(plan: Plan, checked: bool) -> Links
    requires { Known plan checked }
    ensures { LinksOf (records_of plan) result }
{
    let count = used(plan.count);
    let none = End {
        from: 0,
        shortest: 0,
        longest: 0,
    };
    let mut ends = [none; ROOM];
    let mut watched: u32 = 0;
    let mut points: u32 = 0;
    for i in 0..count {
        let r = plan.records[i];
        if checked & (LINK < r.kind) {
            break;
        }
        if r.kind != LINK {
            points += u32::from(r.kind == POINT);
            continue;
        }
        let c = r.b as usize % ROOM;
        let end = ends[c];
        ends[c] = end_after(r, watched, end);
        watched = watched_after(r, watched);
    }
    Links {
        points,
        watched,
        ends,
    }
}

// The links of any plan.
pub fn links_of(plan: Plan) -> Links
    ensures { LinksOf (records_of plan) result }
{
    links_by(plan, false)
}
