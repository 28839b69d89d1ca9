// What the records of a plan say of its points, from what has happened as plain values: one pass keeps the set of shut
// points and three tables, of the records that keep them shut, of the Lows and of the Highs. A plan that `check` accepts and small minutes are assumed, so that
// every number fits. A High can be below zero, and is kept 100,000 up. An inner room: it serves `windows` and `steps`.

#![tactic(auto)]

ghost use Rattle.std.specs.Prelude.{◌≡◌, ◌≤◌, length, if◌then◌else◌};
ghost use Rattle.points.specs.Sets.{with_of};
ghost use Rattle.plan.specs.Limits.{most_points};
ghost use Rattle.plan.specs.APlan.{records_of};
ghost use Rattle.lowhigh.specs.Inside.{last_minute, Near, Given, ordinary_says, wait_says, says_of, Small, said_by, Hearing, raised, lowered, held, TablesOf};

use history::ROOM;
use links::{End, Links};
use plan::{Gap, ORDINARY, Plan, Record, WAIT, split, used};
use points::{has, with};

// No duration and no bound is further from 0 than this, and an offer reaches no further past the clock.
pub const FARTHEST: u32 = plan::FARTHEST as u32;

// Past every minute.
pub const NEVER: u32 = 4294967295;

// What the records say of each point: which are shut, the number of the first record that keeps each of these shut and 0 for
// the others, the Lows, and the Highs, 100,000 up.
#[derive(Clone, Copy)]
pub struct Tables {
    pub shut: u32,
    pub holders: [u32; ROOM],
    pub lows: [u32; ROOM],
    pub highs: [u32; ROOM],
}

// What one record says: whether it keeps its first point shut, before which minute it keeps that point, and past which
// minute, 100,000 up, it does not let its second point come.
// Three facts of any record, none of which is there only with another: so no Option.
#[derive(Clone, Copy)]
pub struct Said {
    pub shuts: bool,
    pub low: u32,
    pub high: u32,
}

pub fn either(so: bool, x: u32, y: u32) -> u32
    ensures { result ≡ (if so then x else y) }
{
    if so { x } else { y }
}

// The set with a point more where `so`.
pub fn with_if(so: bool, s: u32, p: u8) -> u32
    ensures { result ≡ (if so then with_of s p else s) }
{
    if so { with(s, p) } else { s }
}

// An ordinary record.
fn ordinary(gap: Gap, left: bool, x: u32, came: bool, y: u32) -> Said
    requires { Near gap × (x ≤ last_minute) × (y ≤ last_minute) }
    ensures { result ≡ ordinary_says gap left x came y }
{
    let low = (y + gap.down).saturating_sub(gap.up);
    let high = x + FARTHEST + gap.up - gap.down;
    Said {
        shuts: (0 < gap.down) & !came,
        low: either(came, low, 0),
        high: either(left, high, NEVER),
    }
}

// A wait.
fn wait(gap: Gap, started: bool, a: u32, ended: bool) -> Said
    requires { Near gap × (a ≤ last_minute) }
    ensures { result ≡ wait_says gap started a ended }
{
    Said {
        shuts: !started,
        low: either(started & !ended, a + gap.up, 0),
        high: NEVER,
    }
}

// Any record: x and y are its points' minutes, `from` is its link's A and a that one's minute.
fn says(r: Record, done: u32, x: u32, y: u32, from: u8, a: u32) -> Said
    requires { Small r x y a }
    ensures { result ≡ says_of r done x y from a }
{
    let gap = split(r.first);
    let ended = has(done, r.b);
    if r.kind == ORDINARY {
        return ordinary(gap, has(done, r.a), x, ended, y);
    }
    if r.kind == WAIT {
        return wait(gap, has(done, from), a, ended);
    }
    Said {
        shuts: false,
        low: 0,
        high: NEVER,
    }
}

// One record more, where `end` is the link that ends at its second point: what it says of its points is kept in the tables.
// Whether it keeps the first one shut.
fn hear(
    r: Record,
    end: End,
    done: u32,
    minutes: &[u32],
    lows: &mut [u32],
    highs: &mut [u32],
) -> bool
    requires { Hearing r end minutes.now lows.old highs.old }
    ensures shuts { result ≡ (said_by r end done minutes.now).shuts }
    ensures lows { lows.new ≡ raised lows.old r.a (said_by r end done minutes.now).low }
    ensures highs { highs.new ≡ lowered highs.old r.b (said_by r end done minutes.now).high }
{
    let a = r.a as usize % ROOM;
    let b = r.b as usize % ROOM;
    let from = end.from as usize % ROOM;
    let said = says(r, done, minutes[a], minutes[b], end.from, minutes[from]);
    lows[a] = lows[a].max(said.low);
    highs[b] = highs[b].min(said.high);
    said.shuts
}

// The table of the first records that keep points shut, with record i, which keeps p shut where `so`; `shut` are the points that
// earlier records keep shut.
fn hold(holders: &mut [u32], shut: u32, p: u8, so: bool, i: u32)
    requires { length holders.old ≡ most_points }
    ensures { holders.new ≡ held holders.old shut p so i }
{
    let at = p as usize % ROOM;
    holders[at] = either(so & !has(shut, p), i, holders[at]);
}

// The pass over the records.
pub fn tables_of(plan: Plan, links: Links, clock: u32, done: u32, minutes: [u32; ROOM]) -> Tables
    requires { Given plan links minutes }
    ensures { TablesOf (records_of plan) (records_of plan) clock done minutes result.shut result.holders result.lows result.highs }
{
    let count = used(plan.count);
    let mut shut: u32 = 0;
    let mut holders = [0u32; ROOM];
    let mut lows = [clock; ROOM];
    let mut highs = [NEVER; ROOM];
    for i in 0..count {
        let r = plan.records[i];
        let b = r.b as usize % ROOM;
        let end = links.ends[b];
        let so = hear(r, end, done, &minutes, &mut lows, &mut highs);
        hold(&mut holders, shut, r.a, so, i as u32);
        shut = with_if(so, shut, r.a);
    }
    Tables {
        shut,
        holders,
        lows,
        highs,
    }
}
