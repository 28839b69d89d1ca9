// Sets of points, each a `u32`: point p is in the set s where bit p of s is 1. A point is a `u8`, and one past 31 is in no set.
// Every function takes any argument, and its contract says in one equation what it replies.
#![tactic(auto)]

ghost use Rattle.std.specs.Prelude.{◌≡◌};
ghost use Rattle.std.specs.Iterator.{item_count};
ghost use Rattle.points.specs.Sets.{member, with_of, without_of, count_of, first_of, below_of, members_of, subset_of, Steps};

use std::marker::Model;

// How many points there are: 0 up to 31. It is also what `first` replies of the empty set.
pub const MOST: u8 = 32;

// The set of all points.
pub const ALL: u32 = 4294967295;

// Is the point p in s?
pub fn has(s: u32, p: u8) -> bool
    ensures { result ≡ member s p }
{
    if p < MOST { (s >> p) % 2 == 1 } else { false }
}

// The set s with the point p. A point past 31 changes nothing.
pub fn with(s: u32, p: u8) -> u32
    ensures { result ≡ with_of s p }
{
    if p < MOST { s | (1 << p) } else { s }
}

// The set s without the point p.
pub fn without(s: u32, p: u8) -> u32
    ensures { result ≡ without_of s p }
{
    if has(s, p) { s - (1 << p) } else { s }
}

// How many points are in s.
pub fn count(s: u32) -> u32
    ensures { result ≡ count_of s }
{
    u32::count_ones(s)
}

// The lowest point of s, or 32 where s is empty.
pub fn first(s: u32) -> u8
    ensures { result ≡ first_of s }
{
    u32::trailing_zeros(s) as u8
}

// The set of the points below n.
pub fn below(n: u8) -> u32
    ensures { result ≡ below_of n }
{
    if n < MOST { (1 << n) - 1 } else { ALL }
}

// The points of a set, from the lowest on, seen as the list of those that are left.
#[derive(Drop)]
pub struct Walk {
    rest: u32,
}

impl Model for Walk {
    ghost use Rattle.std.specs.Prelude.{ℕ, List};
    ghost use Rattle.points.specs.Sets.{members_of};

    ghost Value = { List ℕ };

    ghost view = { λ w. members_of w.rest };
}

impl Iterator for Walk {
    type Item = u8;

    ghost next_gives = { Steps };

    ghost remaining = { item_count (λ rest. rest) };

    fn next(&mut self) -> Option<u8> {
        if self.rest == 0 {
            return None;
        }
        let p = first(self.rest);
        self.rest = without(self.rest, p);
        Some(p)
    }
}

// The points of a set, one after the other, the lowest first.
pub fn members(s: u32) -> Walk
    ensures { result ≡ members_of s }
{
    Walk { rest: s }
}

// Is every point of a in b?
pub fn subset(a: u32, b: u32) -> bool
    ensures { result ≡ subset_of a b }
{
    members(a).all(|p| has(b, p))
}
