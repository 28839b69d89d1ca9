// The first pair of points, the first point slowest, that is joined by a walk and by no way as short: from the tables of all
// distances and of the least ways.

#![tactic(auto)]

ghost use Rattle.std.specs.Prelude.{◌≡◌, ◌&&◌, ltb, ◌<◌, ◌≤◌};
ghost use Rattle.tables.specs.Tables.{side};
ghost use Rattle.tables.specs.Entries.{at, nowhere};
ghost use Rattle.pairs.specs.Pairs.{Kept, Undercut, InRow, FirstPair};

use tables::{NONE, ROOM, SIDE};

// The distance is there, and below the least way.
fn undercut(distance: u32, way: u32) -> bool
    ensures { result ≡ (ltb distance nowhere && ltb distance way) }
{
    (distance < NONE) & (distance < way)
}

// The first point that is trouble in the row of `x`.
fn in_row(all: &[u32; ROOM], ways: &[u32; ROOM], n: usize, x: usize) -> Option<usize>
    requires { (n ≤ side) × (x < n) }
    ensures { InRow n (at all.now) (at ways.now) x result }
{
    let row = x * SIDE;
    for y in 0..n {
        if undercut(all[row + y], ways[row + y]) {
            return Some(y);
        }
    }
    None
}

// The first pair that is trouble.
pub fn first_pair(all: &[u32; ROOM], ways: &[u32; ROOM], n: usize) -> Option<(u32, u32)>
    requires { n ≤ side }
    ensures { FirstPair n (Kept (at all.now) (at ways.now)) (Undercut (at all.now) (at ways.now)) result }
{
    for x in 0..n {
        if let Some(y) = in_row(all, ways, n, x) {
            return Some((x as u32, y as u32));
        }
    }
    None
}
