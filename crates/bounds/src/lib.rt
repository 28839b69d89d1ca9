// One ordinary constraint on plain numbers: two points and a bound. Document 01, "A plan" (ordinary records) and "Verdict
// and plan test". Takes any numbers: the sums are of 64 bits, and nothing is asked of a bound.

#![tactic(auto)]

ghost use Rattle.std.specs.Prelude.{◌≡◌};
ghost use Rattle.bounds.specs.Bounds.{bound_kept, both_in};

use plan::split;

// The point `to` comes at most `bound` minutes after the point `from`.
#[derive(Clone, Copy)]
pub struct Bound {
    pub from: u8,
    pub to: u8,
    pub bound: i32,
}

// The minute `to` is at most `bound` after the minute `from`.
pub fn bound_kept(from: u32, bound: i32, to: u32) -> bool
    ensures { result ≡ bound_kept from bound to }
{
    let gap = split(bound);
    u64::from(to) + u64::from(gap.down) <= u64::from(from) + u64::from(gap.up)
}

// Both points are in a plan of so many points.
pub fn both_in(points: u32, from: u8, to: u8) -> bool
    ensures { result ≡ both_in points from to }
{
    (u32::from(from) < points) & (u32::from(to) < points)
}
