// Phrases of a listing: one word from a place in a text on, the end of a line, and what a word says: a kind, a number that its place
// holds, `none`, a set of points. Texts may be any bytes, of any length, and nothing is asked of a caller. No byte is copied: what is
// kept of a word while its bytes go by is a small struct. An inner room: it serves `listing`.

#![tactic(auto)]

ghost use Rattle.std.specs.Prelude.{◌≡◌, drop};
ghost use Rattle.phrases.specs.Phrases.{begins_lf};
ghost use Rattle.phrases.specs.Inside.{fresh_word, ended, pointed, with_byte, blank_by, ends_by, blanks_from, word_from, line_end};
ghost use Rattle.phrases.specs.Inside.{number_named, other_kind, kind_by, none_in, set_in, set_by, point_or_none_in, point_or_none_by};

use points::{has, with};
use values::Seen;

const TAB: u8 = b'\t';

const LF: u8 = b'\n';

const CR: u8 = b'\r';

const SPACE: u8 = b' ';

const HASH: u8 = b'#';

const COMMA: u8 = b',';

// Words, their letters as one number to the base 256, the first letter highest: mark, event, none.
const MARK_WORD: u64 = 0x6d61726b;

const EVENT_WORD: u64 = 0x6576656e74;

const NONE_WORD: u64 = 0x6e6f6e65;

// The kinds of line: those of a plan's records, the mark, an event.
#[derive(Clone, Copy)]
pub enum Kind {
    Point,
    Link,
    Ordinary,
    Wait,
    Mark,
    Event,
}

// What is known of a word's bytes so far: all of them; and as points with commas between them, the set of those that have ended,
// whether each was one and new, and the point that goes by.
#[derive(Clone, Copy)]
pub struct Word {
    pub seen: Seen,
    pub set: u32,
    pub good: bool,
    pub point: Seen,
}

// A word and the place of the byte that ends it. It has no bytes where the line has no more words.
#[derive(Clone, Copy)]
pub struct Found {
    pub word: Word,
    pub next: usize,
}

pub fn is_none(s: Seen) -> bool
    ensures { result ≡ none_in s }
{
    s.is_word(4, NONE_WORD)
}

// The kind that a word names.
#[tactic(auto, unfolding(crate::specs::Inside::kind_by))]
pub fn kind_of(s: Seen) -> Option<Kind>
    ensures { number_named result ≡ kind_by s }
{
    match s.kind() {
        0 => mark_or_event(s),
        1 => Some(Kind::Point),
        2 => Some(Kind::Link),
        3 => Some(Kind::Ordinary),
        _ => Some(Kind::Wait),
    }
}

// The kind that no record of a plan has.
fn mark_or_event(s: Seen) -> Option<Kind>
    ensures { number_named result ≡ other_kind s }
{
    if s.is_word(4, MARK_WORD) {
        return Some(Kind::Mark);
    }
    if s.is_word(5, EVENT_WORD) {
        return Some(Kind::Event);
    }
    None
}

// `none`, or a point of an event.
pub fn is_point_or_none(s: Seen) -> bool
    ensures { result ≡ point_or_none_in s }
{
    is_none(s) | s.is_below(255)
}

pub fn point_or_none(s: Seen) -> u32
    ensures { result ≡ point_or_none_by s }
{
    if is_none(s) {
        255
    } else {
        (s.size % 256) as u32
    }
}

impl Word {
    pub fn none() -> Self
        ensures { result ≡ fresh_word }
    {
        Word {
            seen: Seen::none(),
            set: 0,
            good: true,
            point: Seen::none(),
        }
    }

    // The point that goes by ends.
    #[tactic(auto, unfolding(crate::specs::Inside::ended))]
    fn ended(self) -> Word
        ensures { result ≡ ended self }
    {
        let now = self.point;
        let p = now.point();
        Word {
            set: with(self.set, p),
            good: self.good & (now.is_below(32) & !has(self.set, p)),
            point: Seen::none(),
            ..self
        }
    }

    // As points, with a byte more.
    fn pointed(self, c: u8) -> Word
        ensures { result ≡ pointed self c }
    {
        if c == COMMA {
            return self.ended();
        }
        Word {
            point: self.point.with(c),
            ..self
        }
    }

    // With a byte more.
    #[tactic(auto, unfolding(crate::specs::Inside::with_byte))]
    fn with_byte(self, c: u8) -> Word
        ensures { result ≡ with_byte self c }
    {
        Word {
            seen: self.seen.with(c),
            ..self.pointed(c)
        }
    }

    // `none`, or points with commas between them.
    pub fn is_set(self) -> bool
        ensures { result ≡ set_in self }
    {
        is_none(self.seen) | self.ended().good
    }

    // The set of them.
    pub fn set(self) -> u32
        ensures { result ≡ set_by self }
    {
        if is_none(self.seen) {
            return 0;
        }
        self.ended().set
    }
}

// Whether an LF stands at a place of the text.
#[tactic(auto, unfolding(crate::specs::Phrases::begins_lf))]
fn is_lf(text: &[u8], at: usize) -> bool
    ensures { result ≡ begins_lf (drop at text.now) }
{
    at < text.len() && text[at] == LF
}

// A space, a tab, or a CR with an LF behind it.
fn is_blank(c: u8, lf: bool) -> bool
    ensures { result ≡ blank_by c lf }
{
    ((c == SPACE) | (c == TAB)) | ((c == CR) & lf)
}

fn ends_word(c: u8, lf: bool) -> bool
    ensures { result ≡ ends_by c lf }
{
    is_blank(c, lf) | ((c == HASH) | (c == LF))
}

// The place of the first byte that is not blank.
fn skip_blanks(text: &[u8], at: usize) -> usize
    ensures { result ≡ blanks_from at (drop at text.now) }
{
    for i in at..text.len() {
        if !is_blank(text[i], is_lf(text, i + 1)) {
            return i;
        }
    }
    at.max(text.len())
}

// The word that begins at a place.
fn word_from(text: &[u8], at: usize) -> Found
    ensures { result ≡ word_from fresh_word at (drop at text.now) }
{
    let mut word = Word::none();
    for i in at..text.len() {
        let c = text[i];
        if ends_word(c, is_lf(text, i + 1)) {
            return Found { word, next: i };
        }
        word = word.with_byte(c);
    }
    Found {
        word,
        next: at.max(text.len()),
    }
}

// The next word of the line, from a place on.
pub fn word_at(text: &[u8], at: usize) -> Found
    ensures { result ≡ word_from fresh_word (blanks_from at (drop at text.now)) (drop (blanks_from at (drop at text.now)) text.now) }
{
    word_from(text, skip_blanks(text, at))
}

// The place behind the line's end.
pub fn line_end(text: &[u8], at: usize) -> usize
    ensures { result ≡ line_end at (drop at text.now) }
{
    for i in at..text.len() {
        if text[i] == LF {
            return i + 1;
        }
    }
    at.max(text.len())
}
