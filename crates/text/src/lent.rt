// The same into a lent buffer, whose first `at` bytes are the text so far; what is returned is the new text's length.

ghost use Rattle.text.specs.Text.{decimal, integer, Appends};

use arrayvec::ArrayVec;

// A word.
pub fn put(out: &mut [u8], at: usize, word: &[u8]) -> usize
    ensures { Appends word.now out.old out.new at result }
{
    if out.len() < at {
        return at;
    }
    at + crate::copy_out(word, &mut out[at..])
}

// A number in decimal.
#[tactic(auto, using(crate::proofs::TextLaws::append_first, crate::proofs::TextLaws::decimal_room))]
pub fn put_decimal(out: &mut [u8], at: usize, n: u64) -> usize
    ensures { Appends (decimal n) out.old out.new at result }
{
    let mut word = ArrayVec::<u8, 20>::new();
    crate::put_decimal(&mut word, n);
    put(out, at, word.as_slice())
}

// A number with a sign, in decimal.
#[tactic(auto, using(crate::proofs::TextLaws::append_first, crate::proofs::TextLaws::integer_room, number::proofs::Bridge::back))]
pub fn put_integer(out: &mut [u8], at: usize, v: i32) -> usize
    ensures { Appends (integer v) out.old out.new at result }
{
    let mut word = ArrayVec::<u8, 11>::new();
    crate::put_integer(&mut word, v);
    put(out, at, word.as_slice())
}
