// What the bytes of a field say as a kind word, a point, a number or a pond code: document 02, §1; specs/ states it in that order.
// What is kept of a field while its bytes go by is a small struct, so no byte is copied. An inner room: it serves `fields` and
// `office`. Nothing is asked of a caller.

#![tactic(auto)]

ghost use Rattle.std.specs.Prelude.{◌≡◌, ◌-◌, ◌%◌, ◌≤◌};
ghost use Rattle.values.specs.Inside.{fresh, with, word_in, below_in, kind_in, decimal_in, point_in, number_in, value_in, shaped_in, code_in, pond_in};

use numbers::signed;

const MINUS: u8 = b'-';

// The kind words, their letters as one number to the base 256: point, link, ordinary, wait.
const POINT_WORD: u64 = 482905517684;

const LINK_WORD: u64 = 1818848875;

const ORDINARY_WORD: u64 = 8030591489541239417;

const WAIT_WORD: u64 = 2002872692;

// Past this a size fits no place of a record.
const TOO_LARGE: u64 = 4294967296;

// What is known of a field's bytes so far: how many (9 for any more), the last eight as a number to the base 256, whether a minus
// leads, whether all others are digits, and the number that they stand for (any past 32 bits where it is past 32 bits).
#[derive(Clone, Copy)]
pub struct Seen {
    pub count: u32,
    pub word: u64,
    pub minus: bool,
    pub digits: bool,
    pub size: u64,
}

impl Seen {
    pub fn none() -> Self
        ensures { result ≡ fresh }
    {
        Seen {
            count: 0,
            word: 0,
            minus: false,
            digits: true,
            size: 0,
        }
    }

    // With a byte more.
    #[tactic(auto, unfolding(crate::specs::Inside::with))]
    pub fn with(self, c: u8) -> Seen
        ensures { result ≡ with self c }
    {
        let leads = (self.count == 0) & (c == MINUS);
        Seen {
            count: self.count.saturating_add(1).min(9),
            word: self.word % 72057594037927936 * 256 + u64::from(c),
            minus: self.minus | leads,
            digits: self.digits & (c.is_ascii_digit() | leads),
            size: 10 * self.size.min(TOO_LARGE) + u64::from(c.saturating_sub(b'0')),
        }
    }

    // The field has so many letters, and they are these: as one number to the base 256, the first letter highest.
    pub fn is_word(self, letters: u32, word: u64) -> bool
        ensures { result ≡ word_in letters word self }
    {
        (self.count == letters) & (self.word == word)
    }

    // Decimal digits, at least one, of a number below n.
    pub fn is_below(self, n: u64) -> bool
        ensures { result ≡ below_in n self }
    {
        (self.count != 0) & ((self.digits & !self.minus) & (self.size < n))
    }

    // The kind that the field names, and 0 where it names none.
    #[tactic(auto, unfolding(crate::specs::Inside::kind_in))]
    pub fn kind(self) -> u8
        ensures { result ≡ kind_in self }
    {
        if self.is_word(5, POINT_WORD) {
            return 1;
        }
        if self.is_word(4, LINK_WORD) {
            return 2;
        }
        if self.is_word(8, ORDINARY_WORD) {
            return 3;
        }
        if self.is_word(4, WAIT_WORD) {
            return 4;
        }
        0
    }

    // No bytes, or digits behind an optional minus.
    fn is_decimal(self) -> bool
        ensures { result ≡ decimal_in self }
    {
        (self.count == 0) | (self.digits & !((self.count == 1) & self.minus))
    }

    // A number that a byte holds.
    #[tactic(auto, unfolding(crate::specs::Inside::point_in))]
    pub fn is_point(self) -> bool
        ensures { result ≡ point_in self }
    {
        self.is_decimal() & ((self.size < 256) & (!self.minus | (self.size == 0)))
    }

    // The number in one byte.
    pub fn point(self) -> u8
        ensures { result ≡ self.size % 256 }
    {
        (self.size % 256) as u8
    }

    // A number that 32 signed bits hold.
    #[tactic(auto, unfolding(crate::specs::Inside::number_in))]
    pub fn is_number(self) -> bool
        ensures { result ≡ number_in self }
    {
        self.is_decimal() & ((self.size < 2147483648) | (self.minus & (self.size == 2147483648)))
    }

    // The number in 32 signed bits.
    #[tactic(auto, unfolding(crate::specs::Inside::value_in))]
    pub fn number(self) -> i32
        ensures { result ≡ value_in self }
    {
        let n = (self.size % TOO_LARGE) as u32;
        if self.minus & (n != 0) {
            return signed(4294967295 - (n - 1));
        }
        signed(n)
    }

    // Two capital letters and four digits.
    #[tactic(auto, unfolding(crate::specs::Inside::shaped_in))]
    fn is_shaped(self) -> bool
        ensures { result ≡ shaped_in self }
    {
        let w = self.word;
        let letters = ((w / 256 / 256 / 256 / 256 / 256 % 256) as u8).is_ascii_uppercase()
            & ((w / 256 / 256 / 256 / 256 % 256) as u8).is_ascii_uppercase();
        let digits = ((w / 256 / 256 / 256 % 256) as u8).is_ascii_digit()
            & (((w / 256 / 256 % 256) as u8).is_ascii_digit()
                & (((w / 256 % 256) as u8).is_ascii_digit() & ((w % 256) as u8).is_ascii_digit()));
        (self.count == 6) & (letters & digits)
    }

    // No bytes, or a pond code.
    pub fn is_code(self) -> bool
        ensures { result ≡ code_in self }
    {
        (self.count == 0) | self.is_shaped()
    }

    // The pond code's number.
    #[tactic(auto, unfolding(crate::specs::Inside::pond_in))]
    pub fn code(self) -> u32
        ensures { result ≡ pond_in self }
    {
        if self.count == 0 {
            return 0;
        }
        let w = self.word;
        let letters = 26 * letter(w / 256 / 256 / 256 / 256 / 256)
            + letter(w / 256 / 256 / 256 / 256);
        let digits = 10
            * (10 * (10 * digit(w / 256 / 256 / 256) + digit(w / 256 / 256)) + digit(w / 256))
            + digit(w);
        letters * 10000 + digits + 1
    }
}

// The last byte of a word as a letter, A as 0.
fn letter(w: u64) -> u32
    ensures { (result ≡ w % 256 - 65) × (result ≤ 190) }
{
    (w % 256).saturating_sub(65) as u32
}

// The last byte of a word as a digit.
fn digit(w: u64) -> u32
    ensures { (result ≡ w % 256 - 48) × (result ≤ 207) }
{
    (w % 256).saturating_sub(48) as u32
}
