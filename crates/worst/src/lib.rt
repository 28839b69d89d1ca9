// The worst finishing minute of a plan, and the day behind it. Document 02, §13. `worst_of` and `day_of` take any plan, any
// number and any buffer. The plan is tested and laid out in rows once; the runs of its projections are on those rows.

#![tactic(auto)]

ghost use Rattle.std.specs.Prelude.{◌≡◌};
ghost use Rattle.worst.specs.WorstMinute.{worst_of, day_of, day_written};

pub use all_runs::Found;
use all_runs::{worst_run, write_day};
pub use choices::DOES_NOT_PASS;
use choices::{chosen, many_by, refused_by};
use plan::{ACCEPTED, Plan, Refusal, links_of, points_of};
use rows::{SHEET, lay_out};
use vee::test;

// The plan's own refusal, 13, 60, or the largest finishing minute and the first projection that reaches it.
pub fn worst_of(plan: Plan) -> Result<Found, Refusal>
    ensures { result ≡ worst_of plan }
{
    let answer = test(plan);
    let refused = refused_by(answer);
    if refused.number != ACCEPTED {
        return Err(refused);
    }
    let mut sheet = [0u32; SHEET];
    lay_out(plan, &mut sheet);
    let n = points_of(plan);
    let links = links_of(plan) as usize;
    Ok(worst_run(&sheet, plan.count as usize, n, links, many_by(answer)))
}

// The plan's own refusal, 13, 60, 12 where the buffer is too short; else how many events the run of that projection has, and
// their sixteen bytes each at the front of the buffer. A number past the last projection has none.
pub fn day_of(plan: Plan, projection: u32, out: &mut [u8]) -> Result<u32, Refusal>
    ensures reply { result ≡ day_of plan projection out.old }
    ensures out { out.new ≡ day_written plan projection out.old }
{
    let answer = test(plan);
    let refused = refused_by(answer);
    if refused.number != ACCEPTED {
        return Err(refused);
    }
    let many = many_by(answer);
    if many <= projection {
        return Ok(0);
    }
    let mut sheet = [0u32; SHEET];
    lay_out(plan, &mut sheet);
    let n = points_of(plan);
    let links = links_of(plan) as usize;
    let w = chosen(&sheet, n as usize + links, links, many, projection);
    write_day(&sheet, plan.count as usize, n, &w, out)
}
