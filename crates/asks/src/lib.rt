// What the words behind the name of the program `desk` ask: a verb, and for `day` a number; the five numbers behind `calendar`
// are asked one at a time. Takes any words. An inner room of that program; specs/Asks states it.

#![tactic(auto)]

ghost use Rattle.std.specs.Prelude.{◌≡◌};
ghost use Rattle.numbers.specs.Fits.{All, IsByte};
ghost use Rattle.values.specs.Inside.{fresh, with_all};
ghost use Rattle.asks.specs.Asks.{asked_of, number_of};
ghost use Rattle.asks.specs.Inside.{count_in, typing_in, alone_in, counted_in, number_in, dated_in};

use values::Seen;

// What is asked; nothing that the desk has a verb for.
#[derive(Clone, Copy)]
pub enum Asked {
    Test,
    Worst,
    Day(u32),
    Import,
    Close,
    Lighter,
    Pack,
    Listing,
    Explain,
    Calendar,
    Nothing,
}

// The verbs, their letters as one number to the base 256, the first letter highest.
const TEST: u64 = 0x74657374;

const WORST: u64 = 0x776f727374;

const DAY: u64 = 0x646179;

const IMPORT: u64 = 0x696d706f7274;

const CLOSE: u64 = 0x636c6f7365;

const LIGHTER: u64 = 0x6c696768746572;

const PACK: u64 = 0x7061636b;

const LIST: u64 = 0x6c697374;

const EXPLAIN: u64 = 0x6578706c61696e;

const CALENDAR: u64 = 0x63616c656e646172;

// What is known of a word's bytes.
fn seen(word: &[u8]) -> Seen
    ensures { (result ≡ with_all fresh word.now) × All IsByte word.now }
{
    let mut s = Seen::none();
    for &c in word {
        s = s.with(c);
    }
    s
}

// Decimal digits, at least one, that 32 bits hold.
fn is_count(s: Seen) -> bool
    ensures { result ≡ count_in s }
{
    s.is_below(4294967296)
}

// A verb alone, of those about what people type and ask.
#[tactic(auto, unfolding(crate::specs::Inside::typing_in))]
fn typing(s: Seen) -> Asked
    ensures { result ≡ typing_in s }
{
    if s.is_word(4, PACK) {
        return Asked::Pack;
    }
    if s.is_word(4, LIST) {
        return Asked::Listing;
    }
    if s.is_word(7, EXPLAIN) {
        return Asked::Explain;
    }
    Asked::Nothing
}

// A verb alone.
#[tactic(auto, unfolding(crate::specs::Inside::alone_in))]
fn alone(s: Seen) -> Asked
    ensures { result ≡ alone_in s }
{
    if s.is_word(4, TEST) {
        return Asked::Test;
    }
    if s.is_word(5, WORST) {
        return Asked::Worst;
    }
    if s.is_word(6, IMPORT) {
        return Asked::Import;
    }
    if s.is_word(5, CLOSE) {
        return Asked::Close;
    }
    if s.is_word(7, LIGHTER) {
        return Asked::Lighter;
    }
    typing(s)
}

// A verb and a number.
#[tactic(auto, unfolding(crate::specs::Inside::counted_in))]
fn counted(s: Seen, n: Seen) -> Asked
    ensures { result ≡ counted_in s n }
{
    if s.is_word(3, DAY) & is_count(n) {
        return Asked::Day((n.size % 4294967296) as u32);
    }
    Asked::Nothing
}

// A verb and five words, which are looked at one at a time.
#[tactic(auto, unfolding(crate::specs::Inside::dated_in))]
fn dated(s: Seen) -> Asked
    ensures { result ≡ dated_in s }
{
    if s.is_word(8, CALENDAR) {
        return Asked::Calendar;
    }
    Asked::Nothing
}

#[tactic(auto, unfolding(crate::specs::Inside::number_in))]
fn number_in(s: Seen) -> Option<u32>
    ensures { result ≡ number_in s }
{
    if is_count(s) {
        return Some((s.size % 4294967296) as u32);
    }
    None
}

// The number that a word is; none where it is no number.
#[tactic(auto, using(crate::proofs::Known::number_known))]
pub fn number_of(word: &[u8]) -> Option<u32>
    ensures { result ≡ number_of word.now }
{
    number_in(seen(word))
}

// What is asked by so many words, the program's name among them, the second and the third of which are these.
#[tactic(auto, using(crate::proofs::Known::alone_known, crate::proofs::Known::counted_known, crate::proofs::Known::dated_known), unfolding(crate::specs::Asks::asked_of))]
pub fn ask(words: usize, verb: &[u8], word: &[u8]) -> Asked
    ensures { result ≡ asked_of words verb.now word.now }
{
    if words == 2 {
        return alone(seen(verb));
    }
    if words == 3 {
        return counted(seen(verb), seen(word));
    }
    if words == 7 {
        return dated(seen(verb));
    }
    Asked::Nothing
}
