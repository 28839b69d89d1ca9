// The lines of events and boards, made behind one another in a room that is lent: what is made of an event, of a board, and of the whole
// records of some bytes as far as there is room for the lines of one more. Every function here has an exact contract, over the rooms of
// the engine that keeps counts. An inner room of the printing programs: some functions have a `requires`, that there is room, which every
// caller is proved to meet.

#![tactic(auto)]

ghost use Rattle.std.specs.Prelude.{◌≡◌, ◌+◌, ◌*◌, ◌≤◌, min, map, length};
ghost use Rattle.points.specs.Sets.{from};
ghost use Rattle.plan.specs.Limits.{most_points};
ghost use Rattle.lines.specs.Text.{room};
ghost use Rattle.lines.specs.Inside.{text_in};
ghost use Rattle.places.specs.Places.{line_at};
ghost use Rattle.printed.specs.Texts.{texts_of};
ghost use Rattle.saying.specs.Makes.{Made, BoardPut};

mod putting;

use engine::{KEPT, LIST};
use lines::Line;
use links::Links;
use places::{ROOM, has_list, line_at, listed};
pub use putting::{MOST, Said, put_event, put_events};
use replies::Reply;
use rows::SHEET;
use stream::behind;

// The text of a line behind the first `at` bytes of the room; answers where it ends.
pub fn put_line(lines: &mut [u8], at: usize, line: Line) -> usize
    requires { at + room ≤ length lines.old }
    ensures made { Made lines.old at (text_in line) lines.new result }
    ensures few { result ≤ at + room }
{
    behind(lines, at, line)
}

// The list of a reply: a line for each of so many points.
fn put_list(
    rows: &[u32; SHEET],
    ponds: [u32; ROOM],
    reply: Reply,
    points: u32,
    lines: &mut [u8],
    at: usize,
) -> usize
    requires { at + room * most_points ≤ length lines.old }
    ensures made { Made lines.old at (texts_of (map (line_at rows.now ponds reply) (from 0 (min points most_points)))) lines.new result }
    ensures few { result ≤ at + room * most_points }
{
    let count = listed(points);
    let mut end = at;
    for i in 0..count {
        let line = line_at(rows, ponds, reply, i);
        end = put_line(lines, end, line);
    }
    end
}

// What the board is that is kept, and its list, if it has one.
pub fn put_board(
    links: Links,
    ponds: [u32; ROOM],
    rows: &[u32; SHEET],
    out: &[u16; LIST],
    kept: &[u32; KEPT],
    lines: &mut [u8],
    at: usize,
) -> usize
    requires { at + room * (most_points + 1) ≤ length lines.old }
    ensures { BoardPut links ponds rows.now out.now kept.now lines.old at lines.new result }
{
    let reply = engine::reply(links, rows, out, kept);
    let board = engine::board_of(kept);
    let first = put_line(lines, at, text::board_line(board, reply));
    let outcome = reply.outcome;
    if !has_list(outcome) {
        return first;
    }
    put_list(rows, ponds, reply, links.points, lines, first)
}
