// Links as numbers in a room that the caller lends, and links from one, whatever it holds, for programs in other languages, to which no struct
// crosses. An inner room: it serves `hulls`, which hands it on. Nothing is asked of a caller.

#![tactic(auto)]

ghost use Rattle.std.specs.Prelude.{◌≡◌};
ghost use Rattle.link_numbers.specs.Rooms.{end_in, links_in, links_room};

use history::ROOM;
use links::{End, Links};

// How many numbers links are.
pub const LINKS: usize = 2 + 3 * ROOM;

// One link's end from three numbers; of the first, the lowest byte.
fn end_in(from: u32, shortest: u32, longest: u32) -> End
    ensures { result ≡ end_in from shortest longest }
{
    End {
        from: (from % 256) as u8,
        shortest,
        longest,
    }
}

// The links that a room holds.
pub fn links_in(room: &[u32; LINKS]) -> Links
    ensures { result ≡ links_in room.now }
{
    let none = End {
        from: 0,
        shortest: 0,
        longest: 0,
    };
    let mut ends = [none; ROOM];
    for q in 0..ROOM {
        let at = 2 + 3 * q;
        ends[q] = end_in(room[at], room[at + 1], room[at + 2]);
    }
    Links {
        points: room[0],
        watched: room[1],
        ends,
    }
}

// Links as the numbers of a room.
pub fn links_room(links: Links) -> [u32; LINKS]
    ensures { result ≡ links_room links }
{
    let ends = links.ends;
    let mut room = [0u32; LINKS];
    room[0] = links.points;
    room[1] = links.watched;
    for q in 0..ROOM {
        let e = ends[q];
        let at = 2 + 3 * q;
        room[at] = e.from as u32;
        room[at + 1] = e.shortest;
        room[at + 2] = e.longest;
    }
    room
}
