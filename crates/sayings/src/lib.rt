// What a line of a listing says, by what is kept of its words: a record of a plan, the mark, an event, nothing; or what was expected.
// And the sixteen bytes of it. specs/Sayings states it. An inner room: it serves `listing`. Nothing is asked of a caller.

#![tactic(auto)]

ghost use Rattle.std.specs.Prelude.{◌≡◌, ◌≤◌, length, map};
ghost use Rattle.values.specs.Inside.{value_in};
ghost use Rattle.phrases.specs.Inside.{kind_number, point_or_none_by, set_by};
ghost use Rattle.sayings.specs.Sayings.{expected, point_record, link_record, ordinary_record, wait_record};
ghost use Rattle.sayings.specs.Inside.{number_of, cell, holds_in, first_wrong, unless_wrong, point_in, count_in, said_in, kind_row, row_by};
ghost use Rattle.sayings.specs.declared.Said.TheVariants.{Event};

use phrases::{Kind, Word, is_point_or_none, kind_of, point_or_none};
use records::Record;

// Room for what is kept of a line's words: the longest kind has five, its own among them, and any more share the last cell.
pub const CELLS: usize = 6;

// What was expected, by number: one of the kind words; as many words as the kind has; and at a word what `Expected` says.
pub const A_KIND: u32 = 1;

pub const SO_MANY_WORDS: u32 = 2;

pub const A_POINT: u32 = 3;

pub const A_NUMBER: u32 = 4;

pub const A_COUNT: u32 = 5;

pub const A_POINT_OR_NONE: u32 = 6;

pub const A_SET: u32 = 7;

// The kinds of a plan's records, as a record has them.
const POINT: u8 = 1;

const LINK: u8 = 2;

const ORDINARY: u8 = 3;

const WAIT: u8 = 4;

// What is expected of a word.
#[derive(Clone, Copy)]
enum Expected {
    Point,
    Number,
    Count,
    PointOrNone,
    Set,
}

// What a line says: nothing where it has no words; a record of a plan; the mark that ends a plan; an event, as its minute, its point
// and its set.
#[derive(Clone, Copy)]
pub enum Said {
    Nothing,
    Plan(Record),
    Mark,
    Event(u32, u32, u32),
}

impl Expected {
    // The number that a line is refused with where a word is not what is expected.
    fn number(self) -> u32
        ensures { result ≡ number_of self }
    {
        match self {
            Expected::Point => A_POINT,
            Expected::Number => A_NUMBER,
            Expected::Count => A_COUNT,
            Expected::PointOrNone => A_POINT_OR_NONE,
            Expected::Set => A_SET,
        }
    }

    // The word is what is expected.
    #[tactic(auto, unfolding(crate::specs::Inside::holds_in))]
    fn holds(self, w: Word) -> bool
        ensures { result ≡ holds_in (number_of self) w }
    {
        match self {
            Expected::Point => w.seen.is_below(256),
            Expected::Number => w.seen.is_number(),
            Expected::Count => w.seen.is_below(4294967296),
            Expected::PointOrNone => is_point_or_none(w.seen),
            Expected::Set => w.is_set(),
        }
    }
}

// What the words behind a kind word are.
#[tactic(auto, unfolding(crate::specs::Sayings::expected))]
fn places_of(kind: Kind) -> &'static [Expected]
    ensures { map number_of result.now ≡ expected (kind_number kind) }
{
    match kind {
        Kind::Point => &[Expected::Point, Expected::Count],
        Kind::Link => &[
            Expected::Point,
            Expected::Number,
            Expected::Number,
            Expected::Point,
        ],
        Kind::Ordinary => &[Expected::Point, Expected::Number, Expected::Point],
        Kind::Wait => &[Expected::Point, Expected::Point, Expected::Number],
        Kind::Mark => &[],
        Kind::Event => &[Expected::Count, Expected::PointOrNone, Expected::Set],
    }
}

// Each word is what is expected; else the number of what is expected at the first that is not.
fn all_hold(places: &[Expected], words: &[Word]) -> Result<(), u32>
    requires { length places.now ≤ length words.now }
    ensures { result ≡ unless_wrong (first_wrong (map number_of places.now) words.now) }
{
    for (i, &place) in places.iter().enumerate() {
        if !place.holds(words[i]) {
            return Err(place.number());
        }
    }
    Ok(())
}

fn point_in(w: Word) -> u8
    ensures { result ≡ point_in w }
{
    w.seen.point()
}

fn number_in(w: Word) -> i32
    ensures { result ≡ value_in w.seen }
{
    w.seen.number()
}

fn count_in(w: Word) -> u32
    ensures { result ≡ count_in w }
{
    (w.seen.size % 4294967296) as u32
}

fn point_by(cells: [Word; CELLS]) -> Record
    ensures { result ≡ point_record (point_in (cell 1 cells)) (count_in (cell 2 cells)) }
{
    Record {
        kind: POINT,
        a: point_in(cells[1]),
        b: 0,
        first: 0,
        second: 0,
        code: count_in(cells[2]),
    }
}

fn link_by(cells: [Word; CELLS]) -> Record
    ensures { result ≡ link_record (point_in (cell 1 cells)) (value_in (cell 2 cells).seen) (value_in (cell 3 cells).seen) (point_in (cell 4 cells)) }
{
    Record {
        kind: LINK,
        a: point_in(cells[1]),
        b: point_in(cells[4]),
        first: number_in(cells[2]),
        second: number_in(cells[3]),
        code: 0,
    }
}

fn ordinary_by(cells: [Word; CELLS]) -> Record
    ensures { result ≡ ordinary_record (point_in (cell 1 cells)) (value_in (cell 2 cells).seen) (point_in (cell 3 cells)) }
{
    Record {
        kind: ORDINARY,
        a: point_in(cells[1]),
        b: point_in(cells[3]),
        first: number_in(cells[2]),
        second: 0,
        code: 0,
    }
}

fn wait_by(cells: [Word; CELLS]) -> Record
    ensures { result ≡ wait_record (point_in (cell 1 cells)) (point_in (cell 2 cells)) (value_in (cell 3 cells).seen) }
{
    Record {
        kind: WAIT,
        a: point_in(cells[1]),
        b: point_in(cells[2]),
        first: number_in(cells[3]),
        second: 0,
        code: 0,
    }
}

fn event_by(cells: [Word; CELLS]) -> Said
    ensures { result ≡ Event (count_in (cell 1 cells)) (point_or_none_by (cell 2 cells).seen) (set_by (cell 3 cells)) }
{
    Said::Event(
        count_in(cells[1]),
        point_or_none(cells[2].seen),
        cells[3].set(),
    )
}

// What the words of a good line say.
#[tactic(auto, unfolding(crate::specs::Inside::said_in))]
fn said_by(kind: Kind, cells: [Word; CELLS]) -> Said
    ensures { result ≡ said_in (kind_number kind) cells }
{
    match kind {
        Kind::Point => Said::Plan(point_by(cells)),
        Kind::Link => Said::Plan(link_by(cells)),
        Kind::Ordinary => Said::Plan(ordinary_by(cells)),
        Kind::Wait => Said::Plan(wait_by(cells)),
        Kind::Mark => Said::Mark,
        Kind::Event => event_by(cells),
    }
}

// A line of so many words, the first of which names the kind.
fn kind_row(kind: Kind, words: usize, cells: [Word; CELLS]) -> Result<Said, u32>
    ensures { result ≡ kind_row (kind_number kind) words cells }
{
    let places = places_of(kind);
    if words != places.len() + 1 {
        return Err(SO_MANY_WORDS);
    }
    all_hold(places, &cells[1..])?;
    Ok(said_by(kind, cells))
}

// A line of so many words, the first five of which are kept in the first cells: what it says, or the number of what was expected.
#[tactic(auto, unfolding(crate::specs::Inside::row_by, crate::specs::Inside::kind_row))]
pub fn row_by(words: usize, cells: [Word; CELLS]) -> Result<Said, u32>
    ensures { result ≡ row_by words cells }
{
    if words == 0 {
        return Ok(Said::Nothing);
    }
    let Some(kind) = kind_of(cells[0].seen) else {
        return Err(A_KIND);
    };
    kind_row(kind, words, cells)
}
