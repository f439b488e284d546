// The listing's reader: from a text to the sheet's bytes in a lent room. Each word is read for itself, and the sheet that the words tell is
// believed only where the text is that sheet's listing.
#![tactic(auto)]

ghost use Rattle.std.specs.Prelude.{◌≡◌, ◌*◌, ◌<◌, ◌≤◌, false, cond, [], length, drop, Some, None, MatchOption, IfOk};
ghost use Rattle.text.specs.Text.{digits};
ghost use Rattle.sheet.specs.Ceilings.{max_columns, max_nodes};
ghost use Rattle.sheet.specs.Ruling.{told};
ghost use Rattle.listing.specs.Telling as telling;
ghost use Rattle.listing.specs.Answers.{Answers, is_listing, text_rule, reader_rules};
ghost use Rattle.reader.specs.Reading.{FirstWord, FrontWord, TypesRead};

use arrayvec::ArrayVec;
use listing::SHEET;
use sheet::{Refusal, Sheet};

// The most type bytes, and the most bytes of records.
const TYPES: usize = Sheet::COLUMNS;

const RECORDS: usize = 6 * Sheet::NODES;

// The words of a text.

#[tactic(auto, unfolding(listing::specs::Telling::parts))]
fn parts(b: u8) -> bool
    ensures { result ≡ telling.parts b }
{
    matches!(b, b' ' | b'(' | b')')
}

// The first word of a text, and what comes after it.
fn next_word(text: &[u8]) -> Option<(&[u8], &[u8])>
    ensures { MatchOption result (telling.words text.now ≡ []) (λ found. FirstWord text.now found.0.now found.1.now) }
{
    let from = text.iter().position(|b| !parts(*b))?;
    let rest = &text[from..];
    let to = rest.iter().position(|b| parts(*b)).unwrap_or(rest.len());
    Some(rest.split_at(to))
}

// The same, empty where there is no word.
fn word_and_rest(text: &[u8]) -> (&[u8], &[u8])
    ensures { FrontWord text.now result.0.now result.1.now }
{
    next_word(text).unwrap_or((b"", b""))
}

// What a word is.

#[tactic(auto, unfolding(listing::specs::Telling::is_number))]
fn is_number(word: &[u8]) -> bool
    ensures { result ≡ telling.is_number word.now }
{
    sheet::byte(word, 0) <= b'9'
}

#[tactic(auto, unfolding(listing::specs::Telling::is_constant))]
fn is_constant(word: &[u8]) -> bool
    ensures { result ≡ telling.is_constant word.now }
{
    is_number(word) || word == b"false".as_slice() || word == b"true".as_slice()
}

#[tactic(auto, unfolding(listing::specs::Telling::bits_of))]
fn bits_of(word: &[u8]) -> u32
    ensures { result ≡ telling.bits_of word.now }
{
    match word {
        [b'-', digits @ ..] => text::digits(digits).wrapping_neg(),
        _ => text::digits(word),
    }
}

// The number after a letter, if that is what the word is.
#[tactic(auto, unfolding(listing::specs::Telling::numbered, listing::specs::Telling::is_number))]
fn number_after(letter: u8, word: &[u8]) -> Option<u32>
    requires { 0 < letter }
    ensures { result ≡ cond (telling.numbered letter word.now) (Some (digits (drop 1 word.now))) None }
{
    match word {
        [first, rest @ ..] if *first == letter && is_number(rest) => Some(text::digits(rest)),
        _ => None,
    }
}

// The type byte of a type's word.
#[tactic(auto, unfolding(listing::specs::Telling::is_type, listing::specs::Telling::type_no))]
fn type_told(word: &[u8]) -> Option<u8>
    ensures { result ≡ cond (telling.is_type word.now) (Some (telling.type_no word.now)) None }
{
    if word == b"bool".as_slice() {
        return Some(0);
    }
    if word == b"int".as_slice() {
        return Some(1);
    }
    None
}

// The names by number, as in the definitions, of which theorem told_back speaks: the contracts are equations with them, and each would have
// to translate a Kind back.

const FBY: u8 = 14;

const REC: u8 = 15;

const NAMES: u8 = 19;

fn kind_no(n: u8) -> u8
    ensures { result ≡ telling.kind_no n }
{
    if n < FBY { 3 } else { n - 10 }
}

fn code_no(n: u8) -> u8
    ensures { result ≡ telling.code_no n }
{
    if n < FBY { n } else { 0 }
}

#[tactic(auto, unfolding(listing::specs::Telling::named))]
fn named(n: u8, word: &[u8]) -> bool
    ensures { result ≡ telling.named n word.now }
{
    word == listing::name(sheet::kind_of(kind_no(n), code_no(n)))
}

fn name_no(word: &[u8]) -> u8
    ensures { result ≡ telling.name_no word.now }
{
    (0..NAMES).find(|n| named(*n, word)).unwrap_or(NAMES)
}

// The record that a word tells.

#[tactic(auto, unfolding(listing::specs::Telling::record_of))]
fn record(kind: u8, code: u8, a: u32) -> [u8; 6]
    ensures { result ≡ telling.record_of kind code a }
{
    let [a, b, c, d] = a.to_be_bytes();
    [kind, code, a, b, c, d]
}

#[tactic(auto, unfolding(listing::specs::Telling::constant_record))]
fn constant_record(kind: u8, word: &[u8]) -> [u8; 6]
    ensures { result ≡ telling.constant_record kind word.now }
{
    if is_number(word) {
        return record(kind, 1, bits_of(word));
    }
    record(kind, 0, u32::from(word == b"true".as_slice()))
}

#[tactic(auto, using(crate::proofs::ToldLaws::type_or), unfolding(listing::specs::Telling::name_record))]
fn name_record(n: u8, next: &[u8]) -> [u8; 6]
    ensures { result ≡ telling.name_record n next.now }
{
    match n {
        FBY => constant_record(4, next),
        REC => record(5, type_told(next).unwrap_or(1), 0),
        _ => record(kind_no(n), code_no(n), 0),
    }
}

#[tactic(auto, unfolding(listing::specs::Telling::record_told))]
fn record_told(word: &[u8], next: &[u8]) -> [u8; 6]
    ensures { result ≡ telling.record_told word.now next.now }
{
    if is_constant(word) {
        return constant_record(0, word);
    }
    if let Some(binder) = number_after(b'v', word) {
        return record(2, 0, binder);
    }
    if let Some(column) = number_after(b'i', word) {
        return record(1, 0, column);
    }
    name_record(name_no(word), next)
}

#[tactic(auto, unfolding(listing::specs::Telling::takes_next))]
fn takes_next(word: &[u8]) -> bool
    ensures { result ≡ telling.takes_next word.now }
{
    named(FBY, word) || named(REC, word)
}

// The sheet that a text tells.

// The type bytes that the words after the first tell, and the text after their words.
fn types(text: &[u8]) -> (ArrayVec<u8, TYPES>, &[u8])
    ensures { TypesRead text.now result.0.items result.1.now }
{
    let mut types = ArrayVec::new();
    let (_, mut left) = word_and_rest(text);
    for _ in 0..TYPES {
        let (word, rest) = word_and_rest(left);
        let Some(t) = type_told(word) else {
            break;
        };
        types.push(t);
        left = rest;
    }
    (types, left)
}

// The records that the words of a text tell; None where no sheet has so many. These and the sheet are put into room that is lent, since what is
// handed on by value is copied at each hand.
fn put_records(text: &[u8], records: &mut ArrayVec<u8, RECORDS>) -> Option<()>
    requires { records.old.items ≡ [] }
    ensures { MatchOption result (6 * max_nodes < length (telling.records_told false (telling.words text.now))) (λ _. records.new.items ≡ telling.records_told false (telling.words text.now)) }
{
    let mut left = text;
    while let Some((word, rest)) = next_word(left) {
        let (next, after) = word_and_rest(rest);
        records
            .try_extend_from_slice(&record_told(word, next))
            .ok()?;
        left = if takes_next(word) { after } else { rest };
    }
    Some(())
}

// A sheet of these type bytes and records.
fn put_headed(s: &mut ArrayVec<u8, SHEET>, types: &[u8], records: &[u8])
    requires few { (length types.now ≤ max_columns) × (length records.now ≤ 6 * max_nodes) }
    requires empty { s.old.items ≡ [] }
    ensures { s.new.items ≡ telling.headed types.now records.now }
{
    let [high, low] = ((4 + types.len() + records.len()) as u16).to_be_bytes();
    text::put(s, &[high, low, 1, types.len() as u8]);
    text::put(s, types);
    text::put(s, records);
}

// The sheet that a text tells; None where it has more records than a sheet, and so is no listing.
fn tell(text: &[u8], s: &mut ArrayVec<u8, SHEET>) -> Option<()>
    requires { s.old.items ≡ [] }
    ensures { MatchOption result (is_listing text.now ≡ false) (λ _. s.new.items ≡ telling.sheet_told text.now) }
{
    let (types, left) = types(text);
    let mut records = ArrayVec::new();
    put_records(left, &mut records)?;
    put_headed(s, types.as_slice(), records.as_slice());
    Some(())
}

// The sheet that a listing tells, or the refusal of a text that is none.
#[tactic(auto, unfolding(listing::specs::Answers::text_rule, listing::specs::Answers::is_listing, sheet::specs::Ruling::rule))]
fn put_sheet(text: &[u8], s: &mut ArrayVec<u8, SHEET>) -> Result<(), Refusal>
    requires { s.old.items ≡ [] }
    ensures rule { told result ≡ text_rule text.now }
    ensures bytes { IfOk result (λ _. s.new.items ≡ telling.sheet_told text.now) }
{
    tell(text, s)
        .filter(|_| writer::lists(s.as_slice(), text))
        .ok_or(Refusal::Text)
}

// The same by itself.
pub fn sheet(text: &[u8]) -> Result<ArrayVec<u8, SHEET>, Refusal>
    ensures rule { told result ≡ text_rule text.now }
    ensures bytes { IfOk result (λ s. s.items ≡ telling.sheet_told text.now) }
{
    let mut s = ArrayVec::new();
    put_sheet(text, &mut s)?;
    Ok(s)
}

// The reader. Into a lent room: an operation, whose clause may not change.
pub fn read(text: &[u8], room: &mut [u8]) -> Result<usize, Refusal>
    ensures { Answers (reader_rules text.now (length room.old)) (telling.sheet_told text.now) room.old room.new result }
{
    let mut s = ArrayVec::new();
    put_sheet(text, &mut s)?;
    listing::answer(s.as_slice(), room)
}
