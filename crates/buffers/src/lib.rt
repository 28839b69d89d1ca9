// Text and numbers into a buffer, from a place on. Each function asks that there is room for it, and answers the place behind it; those of `ending`
// leave out what has no room. An inner room: it serves `moments`, `calendar` and `stream`.

#![tactic(auto)]

ghost use Rattle.std.specs.Prelude.{◌≡◌, ◌++◌, length};
ghost use Rattle.lines.specs.Text.{decimal};
ghost use Rattle.buffers.specs.Inside.{Room, Laid};

mod ending;

pub use ending::{append, behind, fits, within};

// The code of the digit 0.
pub const NOUGHT: u8 = b'0';

// A text as it is.
pub fn put(out: &mut [u8], at: usize, text: &[u8]) -> usize
    requires { Room out.old at text.now }
    ensures { Laid out.old at text.now out.new result }
{
    let end = at + text.len();
    out[at..end].copy_from_slice(text);
    end
}

// How many decimal digits a number has.
pub fn digits_of(n: u32) -> usize
    ensures { result ≡ length (decimal n) }
{
    let mut k: usize = 1;
    let mut m = n;
    // By division: no index is counted.
    while 10 <= m {
        m = m / 10;
        k += 1;
    }
    k
}

// A number in decimal, the last digit first.
pub fn put_number(out: &mut [u8], at: usize, n: u32) -> usize
    requires { Room out.old at (decimal n) }
    ensures { Laid out.old at (decimal n) out.new result }
{
    let next = at + digits_of(n);
    let mut i = next - 1;
    let mut m = n;
    // By division: no index is counted.
    while 10 <= m {
        out[i] = b'0' + (m % 10) as u8;
        m = m / 10;
        i = i - 1;
    }
    out[i] = b'0' + (m as u8);
    next
}

// A text and a number behind it.
pub fn put_numbered(out: &mut [u8], at: usize, text: &[u8], n: u32) -> usize
    requires { Room out.old at (text.now ++ decimal n) }
    ensures { Laid out.old at (text.now ++ decimal n) out.new result }
{
    let number = put(out, at, text);
    put_number(out, number, n)
}
