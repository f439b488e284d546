// The same into a lent buffer, whose first `at` bytes are the text so far; what is returned is the new text's length.

ghost use Rattle.text.specs.Text.{Appends, Puts};
ghost use Rattle.sheet.specs.Ruling.{number_of, place_of};
ghost use Rattle.words.specs.Words.{type_word, refused_line};

use arrayvec::ArrayVec;
use sheet::{Refusal, ValueType};

pub fn put_type(out: &mut [u8], at: usize, t: ValueType) -> usize
    ensures { Appends (type_word t) out.old out.new at result }
{
    let mut word = ArrayVec::<u8, 4>::new();
    crate::put_type(&mut word, t);
    text::lent::put(out, at, word.as_slice())
}

pub fn put_refusal(out: &mut [u8], at: usize, r: Refusal) -> usize
    ensures { Puts 33 (refused_line (number_of r) (place_of r)) out.old out.new at result }
{
    let line = crate::refusal::<33>(r);
    text::lent::put(out, at, line.as_slice())
}
