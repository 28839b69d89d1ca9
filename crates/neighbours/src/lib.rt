// The records of a plan that is laid out in rows, listed by a point: where each point's list starts, and where each of its
// entries goes on, in file order. The room is lent, so that a walk reads only the records that name its point. An inner room: some
// functions have a `requires`, which every caller is proved to meet; what the rooms hold may be any numbers.

#![tactic(auto)]

ghost use Rattle.std.specs.Prelude.{◌≡◌, ◌<◌, ◌≤◌, replicate};
ghost use Rattle.std.specs.Iterator.{YieldsFirst, item_count};
ghost use Rattle.plan.specs.Limits.{most_records};
ghost use Rattle.rows.specs.Sheet.{width};
ghost use Rattle.neighbours.specs.Lists.{buckets, list_room, key_of, key_at, entries_of, still_ahead, Indexed};

use plan::{MOST_POINTS, MOST_RECORDS};
use rows::SHEET;

// A place for each point.
pub const SIDE: usize = MOST_POINTS as usize;

// A list for each point, and one for the records that are in no point's.
pub const BUCKETS: usize = SIDE + 1;

// Where each list starts, and where each record's entry goes on.
pub const LIST: usize = BUCKETS + MOST_RECORDS;

// How many numbers a row has.
const WIDTH: usize = SHEET / MOST_RECORDS;

// The end of a list.
const NONE: u16 = MOST_RECORDS as u16;

const MANY: u64 = BUCKETS as u64;

// The list of a record of some kind and point, where the kinds below `least` are in no point's.
fn key(least: u64, kind: u64, point: u64) -> usize
    ensures { (result ≡ key_of least kind point) × (result < buckets) }
{
    if kind < least {
        SIDE
    } else {
        (point % MANY) as usize
    }
}

fn key_at(rows: &[u32; SHEET], least: u64, field: usize, i: usize) -> usize
    requires { (field < width) × (i < most_records) }
    ensures { (result ≡ key_at rows.now least field i) × (result < buckets) }
{
    let at = i * WIDTH;
    key(least, u64::from(rows[at]), u64::from(rows[at + field]))
}

fn clear(list: &mut [u16; LIST])
    ensures { list.new ≡ replicate list_room most_records }
{
    *list = [NONE; LIST];
}

// The lists of the first `count` rows of the kinds from `least` on, by the point in a field: each record is put in front of its
// list, from the last to the first.
pub fn build(rows: &[u32; SHEET], least: u64, field: usize, count: usize, list: &mut [u16; LIST])
    requires { (field < width) × (count ≤ most_records) }
    ensures { Indexed (key_at rows.now least field) count list.new }
{
    clear(&mut *list);
    for i in (0..count).rev() {
        let k = key_at(rows, least, field, i);
        list[BUCKETS + i] = list[k];
        list[k] = i as u16;
    }
}

// A walk along a list: where it is, and how many records it may still give, so that it ends whatever the list holds.
#[derive(Drop)]
pub struct Walk<'a> {
    list: &'a [u16; LIST],
    at: usize,
    left: usize,
}

impl<'a> Iterator for Walk<'a> {
    type Item = usize;

    ghost next_gives = { YieldsFirst still_ahead };

    ghost remaining = { item_count still_ahead };

    // The record where the walk is; it goes on to the next of the same list.
    fn next(&mut self) -> Option<usize> {
        if self.left == 0 {
            return None;
        }
        if MOST_RECORDS <= self.at {
            return None;
        }
        let i = self.at;
        self.left -= 1;
        self.at = usize::from(self.list[BUCKETS + i]);
        Some(i)
    }
}

// The records of the list of the point z, in order.
pub fn entries(list: &[u16; LIST], z: usize) -> Walk<'_>
    ensures { still_ahead result ≡ entries_of list.now z }
{
    Walk {
        list,
        at: usize::from(list[z % BUCKETS]),
        left: MOST_RECORDS,
    }
}
