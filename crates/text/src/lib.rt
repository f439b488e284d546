// Text: words and decimal numbers, appended to a text of a fixed room, or to the text in a lent buffer, copied into a lent buffer, and read.
// Where a word has no room, the text is left open. By hand and not by write!: a write! can fail, and these can't.
#![tactic(auto)]

ghost use Rattle.std.specs.Prelude.{◌≡◌};
ghost use Rattle.text.specs.Text.{decimal, integer, digits, Adds, Copied};

pub mod lent;

use arrayvec::ArrayVec;

// A word.
pub fn put<const N: usize>(out: &mut ArrayVec<u8, N>, word: &[u8])
    ensures { Adds N word.now out.old.items out.new.items }
{
    let _ = out.try_extend_from_slice(word);
}

// A number in decimal.
#[tactic(auto, using(crate::proofs::TextLaws::append_then, crate::proofs::TextLaws::decimal_digit, crate::proofs::TextLaws::decimal_more))]
pub fn put_decimal<const N: usize>(out: &mut ArrayVec<u8, N>, n: u64)
    ensures { Adds N (decimal n) out.old.items out.new.items }
{
    if n < 10 {
        put(out, &[b'0' + n as u8]);
    } else {
        put_decimal(out, n / 10);
        put(out, &[b'0' + (n % 10) as u8]);
    }
}

// A number with a sign, in decimal.
pub fn put_integer<const N: usize>(out: &mut ArrayVec<u8, N>, v: i32)
    ensures { Adds N (integer v) out.old.items out.new.items }
{
    if v < 0 {
        put(out, b"-");
    }
    put_decimal(out, u64::from(v.unsigned_abs()));
}

// What of a text a lent buffer has room for is copied into it, and what is returned is how many bytes that is.
pub fn copy_out(text: &[u8], out: &mut [u8]) -> usize
    ensures { Copied text.now out.old out.new result }
{
    let n = text.len().min(out.len());
    out[..n].copy_from_slice(&text[..n]);
    n
}

// The number that a word says in decimal, less multiples of 2 ^ 32.
#[tactic(auto, using(crate::proofs::TextLaws::digits_more), unfolding(crate::specs::Text::digits, crate::specs::Text::digits_after))]
pub fn digits(word: &[u8]) -> u32
    ensures { result ≡ digits word.now }
{
    let mut n: u32 = 0;
    for b in word {
        n = n.wrapping_mul(10).wrapping_add(u32::from(*b % 16));
    }
    n
}
