// What is kept of the fresh board.
ghost use Rattle.std.specs.Prelude.{◌≡◌, ◌≤◌, replicate};
ghost use Rattle.plan.specs.Limits.{most_records};
ghost use Rattle.kept.specs.Rooms.{kept_room};
ghost use Rattle.kept.specs.Begins.{Begun};

use kept::{HIGHS, KEPT, hold, place, sum};
use lowhigh::NEVER;
use neighbours::SIDE;
use rows::{SHEET, row_at};

fn zeros(kept: &mut [u32; KEPT])
    ensures { kept.new ≡ replicate kept_room 0 }
{
    *kept = [0; KEPT];
}

fn clear(kept: &mut [u32; KEPT], rows: &[u32; SHEET])
    ensures { Begun rows.now 0 kept.new }
{
    zeros(&mut *kept);
    for q in 0..SIDE {
        kept[HIGHS + q] = NEVER;
    }
}

// Each of the first `count` records that holds a point is counted.
pub(crate) fn begin_kept(rows: &[u32; SHEET], count: usize, kept: &mut [u32; KEPT])
    requires { count ≤ most_records }
    ensures { Begun rows.now count kept.new }
{
    clear(&mut *kept, rows);
    for i in 0..count {
        let row = row_at(rows, i);
        let v = place(row.from) as usize;
        kept[v] = sum(kept[v], hold(row));
    }
}
