// The words that more than one program prints: a type and a refusal.
#![tactic(auto)]

ghost use Rattle.std.specs.Prelude.{◌≡◌, ◌≤◌, length};
ghost use Rattle.text.specs.Text.{Adds};
ghost use Rattle.sheet.specs.Ruling.{number_of, place_of};
ghost use Rattle.words.specs.Words.{type_word, refused_line};

pub mod lent;

use arrayvec::ArrayVec;
use sheet::{Refusal, ValueType};

pub fn put_type<const N: usize>(out: &mut ArrayVec<u8, N>, t: ValueType)
    ensures { Adds N (type_word t) out.old.items out.new.items }
{
    let word: &[u8] = match t {
        ValueType::Bool => b"bool",
        ValueType::Int => b"int",
    };
    text::put(out, word);
}

#[tactic(auto, using(text::proofs::TextLaws::append_then, crate::proofs::WordLaws::refused_length), unfolding(crate::specs::Words::refused_line))]
pub fn put_refusal<const N: usize>(out: &mut ArrayVec<u8, N>, r: Refusal)
    ensures text { Adds N (refused_line (number_of r) (place_of r)) out.old.items out.new.items }
    ensures short { length (refused_line (number_of r) (place_of r)) ≤ 33 }
{
    text::put(out, b"refused ");
    text::put_decimal(out, u64::from(r.number()));
    text::put(out, b" ");
    text::put_decimal(out, r.place() as u64);
    text::put(out, b"\n");
}

// All that is printed of a refusal.
#[tactic(auto, using(text::proofs::TextLaws::append_first))]
pub fn refusal<const N: usize>(r: Refusal) -> ArrayVec<u8, N>
    ensures { 33 ≤ N → result.items ≡ refused_line (number_of r) (place_of r) }
{
    let mut text = ArrayVec::new();
    put_refusal(&mut text, r);
    text
}
