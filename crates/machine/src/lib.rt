// The machine of the printing programs: it is begun, and goes on by turns, each with a piece of the input in order, the last with its end; after
// each turn the lines that were made stand at the front of a lent room. Where it stands, in the plan part, at the events or behind a refused plan,
// is one struct by value, `Stage`; so is what it used of the piece. Here are its beginning and its turns in the plan part; `turns` has the whole turn.
// Or it is fed with pieces of the input, `feed`, and finished, `finish`: the two cases of a turn, each a function by itself.
// Every function here has an exact contract, but for where the machine stands behind the end, which nothing asks; `plan_turn`, `feed`, `finish` and
// `carry` have an inner room's `requires`: that there is room for the lines, and that places are within the chunk.

#![tactic(auto)]

ghost use Rattle.std.specs.Prelude.{◌≡◌, true};
ghost use Rattle.machine.specs.Feeds.{at_first};

mod ended;
mod pieces;
mod plan_part;

pub use chunks::carry;
pub use ended::finish;
use links::{End, Links};
pub use pieces::feed;
use places::ROOM;
pub use plan_part::plan_turn;

// Whether the plan part is over, and then the plan's refusal, or 0; the bytes of the plan part so far; the number of the next event; the
// plan's links and ponds; how many bytes of the last piece were used; and where its lines end.
// It is fed on, refused or not, and `Turned`, `Feeds` and `Finishes` are stated of all its parts: so no Result.
#[derive(Clone, Copy)]
pub struct Stage {
    pub begun: bool,
    pub number: u32,
    pub part: u64,
    pub events: u64,
    pub links: Links,
    pub ponds: [u32; ROOM],
    pub used: usize,
    pub end: usize,
}

// The machine, before any input.
pub fn begin() -> Stage
    ensures { result ≡ at_first }
{
    let none = End {
        from: 0,
        shortest: 0,
        longest: 0,
    };
    let links = Links {
        points: 0,
        watched: 0,
        ends: [none; ROOM],
    };
    Stage {
        begun: false,
        number: plan::ACCEPTED,
        part: 0,
        events: 0,
        links,
        ponds: [0; ROOM],
        used: 0,
        end: 0,
    }
}

// The machine behind the plan part, with other events, bytes used and lines.
pub fn stands(stage: Stage, events: u64, used: usize, end: usize) -> Stage
    ensures { result ≡ record { begun = true; number = stage.number; part = stage.part; events = events; links = stage.links; ponds = stage.ponds; used = used; end = end } }
{
    let links = stage.links;
    let ponds = stage.ponds;
    Stage {
        begun: true,
        number: stage.number,
        part: stage.part,
        events,
        links,
        ponds,
        used,
        end,
    }
}
