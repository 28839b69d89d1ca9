// Distances that no record may have as its bound.
ghost use Rattle.std.specs.Prelude.{◌≡◌, ◌≤◌, ◌<◌};
ghost use Rattle.tables.specs.Tables.{side};
ghost use Rattle.tables.specs.Entries.{wide, at};
ghost use Rattle.vee.specs.TestOf.{among};
ghost use Rattle.closure.specs.Closing.{too_far, some_too_far};

use plan::FARTHEST;
use tables::{BIAS, NONE, ROOM, SIDE};

// The least and the largest bound, as a table has it.
const LEAST: u32 = BIAS - FARTHEST as u32;

const MOST: u32 = BIAS + FARTHEST as u32;

// Whether a distance is outside the bounds of a record.
fn is_far(v: u32) -> bool
    ensures { result ≡ too_far (wide v) }
{
    (v < NONE) & ((v < LEAST) | (MOST < v))
}

// Whether one from `x` is.
fn far_from(t: &[u32; ROOM], n: usize, x: usize) -> bool
    requires { (n ≤ side) × (x < n) }
    ensures { result ≡ among n (λ Y. too_far (at t.now x Y)) }
{
    let row = x * SIDE;
    (0..n).any(|y| is_far(t[row + y]))
}

// Whether one between any two of `n` points is.
pub(crate) fn some_far(t: &[u32; ROOM], n: usize) -> bool
    requires { n ≤ side }
    ensures { result ≡ some_too_far n (at t.now) }
{
    (0..n).any(|x| far_from(t, n, x))
}
