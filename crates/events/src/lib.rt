// The sixteen bytes of an event: its fields, and whether it is well formed in a plan of so many points. Bytes may be any, of
// any length. And three numbers stored in a lent room, as is said of each event of a stream. An inner room: it serves
// `board` and the crates between.

#![tactic(auto)]

ghost use Rattle.std.specs.Prelude.{◌≡◌, [], ◌∷◌, ◌+◌, ◌^◌, ◌≤◌, ◌<◌, min, length, set};
ghost use Rattle.std.proofs.lemmas.List.Edits.{sets};
ghost use Rattle.plan.specs.Limits.{record_bytes};
ghost use Rattle.events.specs.Fields.{event_set, well_formed};
ghost use Rattle.events.specs.Inside.{event_in};

use history::first_points;
use numbers::word_at;
use plan::RECORD_BYTES;
use points::subset;

// What an event says: its minute, the foreman's point, and the set of watched points.
#[derive(Clone, Copy)]
pub struct Event {
    pub minute: u32,
    pub point: u8,
    pub set: u32,
}

// No foreman's point.
pub const NO_POINT: u8 = 255;

pub fn event_in(bytes: &[u8]) -> Event
    requires { record_bytes ≤ length bytes.now }
    ensures { (result ≡ event_in bytes.now) × (event_set bytes.now < 2 ^ 32) }
{
    Event {
        minute: word_at(bytes, 0),
        point: bytes[4],
        set: word_at(bytes, 8),
    }
}

// 23 is not given, in a plan of n points.
pub fn is_formed(bytes: &[u8], n: u32) -> bool
    ensures { result ≡ well_formed n bytes.now }
{
    if bytes.len() != RECORD_BYTES {
        return false;
    }
    let blank = (bytes[5] == 0) & ((bytes[6] == 0) & ((bytes[7] == 0) & (word_at(bytes, 12) == 0)));
    let e = event_in(bytes);
    let no_point = e.point == NO_POINT;
    let all = first_points(n);
    blank
        & ((no_point | (u32::from(e.point) < n))
            & (subset(e.set, all) & !(no_point & (e.set == 0))))
}

fn put(room: &mut [u32], at: usize, x: u32)
    requires { at < length room.old }
    ensures { room.new ≡ set room.old at x }
{
    room[at] = x;
}

// Four numbers from a place on.
pub fn put_four(room: &mut [u32], at: usize, x: u32, y: u32, z: u32, u: u32)
    requires { at + 4 ≤ length room.old }
    ensures { room.new ≡ sets room.old at (x ∷ y ∷ z ∷ u ∷ []) }
{
    put(room, at, x);
    put(room, at + 1, y);
    put(room, at + 2, z);
    put(room, at + 3, u);
}

pub fn fewer(a: usize, b: usize) -> usize
    ensures { result ≡ min a b }
{
    a.min(b)
}
