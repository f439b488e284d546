// The listing's writer: from a sheet's bytes to its text in a lent room.
#![tactic(auto)]

ghost use Rattle.std.specs.Prelude.{◌≡◌, ◌++◌, length, replicate, IfOk};
ghost use Rattle.finite.specs.Lists.{joined};
ghost use Rattle.text.specs.Text.{decimal, Adds};
ghost use Rattle.sheet.specs.Ceilings.{max_nodes};
ghost use Rattle.sheet.specs.Bytes as bytes;
ghost use Rattle.sheet.specs.Form.{Formed, form};
ghost use Rattle.sheet.specs.Ruling.{told};
ghost use Rattle.listing.specs.Listing as text;
ghost use Rattle.listing.specs.Answers.{Answers, writer_rules, lists};

use arrayvec::ArrayVec;
use listing::TEXT;
use sheet::{Column, Kind, Node, Refusal, Sheet, ValueType};

// What a node carries.

fn put_constant<const N: usize>(out: &mut ArrayVec<u8, N>, t: ValueType, a: u32)
    ensures { Adds N (text.constant t a) out.old.items out.new.items }
{
    match (t, a) {
        (ValueType::Bool, 0) => text::put(out, b"false"),
        (ValueType::Bool, _) => text::put(out, b"true"),
        (ValueType::Int, _) => text::put_integer(out, number::of_bits(a)),
    }
}

// A letter and a number.
#[tactic(auto, using(text::proofs::TextLaws::append_then))]
fn put_numbered<const N: usize>(out: &mut ArrayVec<u8, N>, letter: &[u8], a: u32)
    ensures { Adds N (letter.now ++ decimal a) out.old.items out.new.items }
{
    text::put(out, letter);
    text::put_decimal(out, u64::from(a));
}

#[tactic(auto, using(text::proofs::TextLaws::append_none, text::proofs::TextLaws::append_then), unfolding(listing::specs::Listing::carried))]
fn put_carried<const N: usize>(out: &mut ArrayVec<u8, N>, k: Kind, a: u32)
    ensures { Adds N (text.carried k a) out.old.items out.new.items }
{
    match k {
        Kind::Const(t) => put_constant(out, t, a),
        Kind::Input => put_numbered(out, b"i", a),
        Kind::Var => put_numbered(out, b"v", a),
        Kind::Fby(t) => {
            text::put(out, b" ");
            put_constant(out, t, a);
        }
        Kind::Rec(t) => {
            text::put(out, b" ");
            words::put_type(out, t);
        }
        Kind::Op(_) | Kind::Let | Kind::Check | Kind::Contract | Kind::Unknown => {}
    }
}

// The brackets.

#[tactic(auto, unfolding(listing::specs::Listing::opens))]
fn opens(k: Kind) -> bool
    ensures { result ≡ text.opens k }
{
    1 <= sheet::arity(k)
}

#[tactic(auto, unfolding(listing::specs::Listing::opening))]
fn opening(k: Kind) -> &'static [u8]
    ensures { result.now ≡ text.opening k }
{
    if opens(k) { b"(" } else { b"" }
}

fn put_closings<const N: usize>(out: &mut ArrayVec<u8, N>, n: u16)
    ensures { Adds N (replicate n 41) out.old.items out.new.items }
{
    for _ in 0..n {
        text::put(out, b")");
    }
}

// A table to count in; written in place, it would stand whole in every goal. Sheet::fresh promises a length alone: with its entries in the
// clause the goals of a run grow too large (tried).
fn zeros() -> [u16; Sheet::NODES]
    ensures { result ≡ replicate max_nodes 0 }
{
    [0; Sheet::NODES]
}

// How many expressions close after each node. This loop and that of put_nodes go by the nodes' numbers and not over the tables' entries, since
// what they read of the sheet goes by the number too.
fn closings(s: &[u8], ends: &[u16; Sheet::NODES]) -> [u16; Sheet::NODES]
    requires formed { Formed s.now }
    requires ends { bytes.Ends s.now ends.now }
    ensures { (length result ≡ max_nodes) × text.Closings s.now result }
{
    let mut table = zeros();
    for a in 0..sheet::nodes(s) {
        if opens(sheet::kind_at(s, Node(a as u16))) {
            let last = usize::from(ends[a]) - 1;
            table[last] += 1;
        }
    }
    table
}

// The text.

#[tactic(auto, using(text::proofs::TextLaws::append_then), unfolding(listing::specs::Listing::node_text))]
fn put_node<const N: usize>(out: &mut ArrayVec<u8, N>, k: Kind, a: u32, closings: u16)
    ensures { Adds N (text.node_text k a closings) out.old.items out.new.items }
{
    text::put(out, b" ");
    text::put(out, opening(k));
    text::put(out, listing::name(k));
    put_carried(out, k, a);
    put_closings(out, closings);
}

#[tactic(auto, using(text::proofs::TextLaws::append_start, text::proofs::TextLaws::append_next), unfolding(listing::specs::Listing::node_at))]
fn put_nodes<const N: usize>(out: &mut ArrayVec<u8, N>, s: &[u8])
    requires { Formed s.now }
    ensures { Adds N (joined (text.node_at s.now) (bytes.nodes s.now)) out.old.items out.new.items }
{
    let mut ends = Sheet::fresh();
    sheet::fill_ends(s, &mut ends);
    let table = closings(s, &ends);
    for i in 0..sheet::nodes(s) {
        let node = Node(i as u16);
        put_node(
            out,
            sheet::kind_at(s, node),
            sheet::argument(s, node),
            table[i],
        );
    }
}

#[tactic(auto, using(text::proofs::TextLaws::append_start))]
fn put_columns<const N: usize>(out: &mut ArrayVec<u8, N>, s: &[u8])
    ensures { Adds N (joined (text.column_at s.now) (bytes.columns s.now)) out.old.items out.new.items }
{
    for c in 0..sheet::byte(s, 3) {
        text::put(out, b" ");
        words::put_type(out, sheet::column_type(s, Column(u16::from(c))));
    }
}

// The listing of a sheet that passes rules 1 to 6.
#[tactic(auto, using(text::proofs::TextLaws::append_then), unfolding(listing::specs::Listing::listing))]
fn put_listing<const N: usize>(out: &mut ArrayVec<u8, N>, s: &[u8])
    requires { Formed s.now }
    ensures { Adds N (text.listing s.now) out.old.items out.new.items }
{
    text::put(out, b"sheet");
    put_columns(out, s);
    put_nodes(out, s);
}

// The same by itself, or the refusal.
pub fn listing(s: &[u8]) -> Result<ArrayVec<u8, TEXT>, Refusal>
    ensures form { told result ≡ form s.now }
    ensures text { IfOk result (λ out. out.items ≡ text.listing s.now) }
{
    sheet::form(s)?;
    let mut out = ArrayVec::new();
    put_listing(&mut out, s);
    Ok(out)
}

// The writer and its test make the listing in place: handed on by value it would be copied at each hand.

// Whether a text is the listing of a sheet that passes rules 1 to 6.
#[tactic(auto, unfolding(listing::specs::Answers::lists, sheet::specs::Ruling::passes))]
pub fn lists(s: &[u8], text: &[u8]) -> bool
    ensures { result ≡ lists s.now text.now }
{
    let Ok(()) = sheet::form(s) else {
        return false;
    };
    let mut own: ArrayVec<u8, TEXT> = ArrayVec::new();
    put_listing(&mut own, s);
    own.as_slice() == text
}

// The writer. Into a lent room: an operation, whose clause may not change.
pub fn write(s: &[u8], room: &mut [u8]) -> Result<usize, Refusal>
    ensures { Answers (writer_rules s.now (length room.old)) (text.listing s.now) room.old room.new result }
{
    sheet::form(s)?;
    let mut own: ArrayVec<u8, TEXT> = ArrayVec::new();
    put_listing(&mut own, s);
    listing::answer(own.as_slice(), room)
}
