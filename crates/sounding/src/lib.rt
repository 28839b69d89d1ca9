// When what a board holds is sound, clause by clause, by the records of any plan or by a table of links: on a clock, the done points, a
// minute for each point and the number of the event that did it. Takes any of them. An inner room: it serves `board`.

#![tactic(auto)]

ghost use Rattle.std.specs.Prelude.{◌≡◌, ◌&&◌};
ghost use Rattle.points.specs.Sets.{below_of};
ghost use Rattle.plan.specs.APlan.{records_of};
ghost use Rattle.history.specs.History.{each, in_bounds, earlier};
ghost use Rattle.sounding.specs.ByLinks.{sound_else, sound_by};

use calls::is_numbered;
use history::{ROOM, all_earlier, all_fit, all_in_bounds, first_points, last_done};
use links::Links;
use lowhigh::FARTHEST;
use plan::Plan;
use points::{count, subset};
use running::all_sound;

// What is asked beside what is asked of the links, where `all` are the plan's points and `watched` the watched ones.
fn sound_else(
    clock: u32,
    done: u32,
    minutes: [u32; ROOM],
    calls: [u32; ROOM],
    all: u32,
    watched: u32,
) -> bool
    ensures { result ≡ sound_else all watched clock done minutes calls }
{
    subset(done, all)
        & (all_fit(clock, done, minutes)
            & ((clock == last_done(done, minutes))
                & ((clock <= FARTHEST * count(done)) & is_numbered(done, minutes, calls, watched))))
}

// By the records of any plan; `links` has its points and the watched ones.
pub fn by_records(
    plan: Plan,
    links: Links,
    clock: u32,
    done: u32,
    minutes: [u32; ROOM],
    calls: [u32; ROOM],
) -> bool
    ensures { result ≡ (sound_else (below_of links.points) links.watched clock done minutes calls && (each (in_bounds clock done minutes) (records_of plan) && each (earlier done calls) (records_of plan))) }
{
    sound_else(
        clock,
        done,
        minutes,
        calls,
        first_points(links.points),
        links.watched,
    ) & (all_in_bounds(plan, clock, done, minutes) & all_earlier(plan, done, calls))
}

// By the links alone.
pub fn by_links(
    links: Links,
    clock: u32,
    done: u32,
    minutes: [u32; ROOM],
    calls: [u32; ROOM],
) -> bool
    ensures { result ≡ sound_by links clock done minutes calls }
{
    sound_else(
        clock,
        done,
        minutes,
        calls,
        first_points(links.points),
        links.watched,
    ) & all_sound(links, clock, done, minutes, calls)
}
