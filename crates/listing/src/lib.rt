// The listing of a sheet, for installers to read and return: what it is, what sheet a text tells, that each tells the other, and what the
// writer and the reader share: the names, and how a result comes into the lent room.
#![tactic(auto)]

ghost use Rattle.std.specs.Prelude.{◌≡◌, length};
ghost use Rattle.sheet.specs.Ceilings.{max_sheet};
ghost use Rattle.listing.specs.Listing.{operator_name, name, max_text};
ghost use Rattle.listing.specs.Answers.{room_rule, Answers};

pub mod lent;

use number::Operator;
use sheet::{Kind, Lent, Refusal, Sheet};

// No listing is longer: `sheet`, ` bool` for each column, and for each node ` (fby -2147483648` with a closing bracket.
pub const TEXT: usize = 5 + 5 * Sheet::COLUMNS + 18 * Sheet::NODES;

// The longest sheet.
pub const SHEET: usize = 4 + Sheet::COLUMNS + 6 * Sheet::NODES;

// Both are those of the definitions.
pub fn sizes() -> (usize, usize)
    ensures { (result.0 ≡ max_text) × (result.1 ≡ max_sheet) }
{
    (TEXT, SHEET)
}

// The names.

fn operator_name(o: Operator) -> &'static [u8]
    ensures { result.now ≡ operator_name o }
{
    match o {
        Operator::Not => b"not",
        Operator::And => b"and",
        Operator::Or => b"or",
        Operator::Xor => b"xor",
        Operator::If => b"if",
        Operator::Eq => b"eq",
        Operator::Lt => b"lt",
        Operator::Le => b"le",
        Operator::Add => b"add",
        Operator::Sub => b"sub",
        Operator::Mul => b"mul",
        Operator::Div => b"div",
        Operator::Neg => b"neg",
        Operator::Mod => b"mod",
    }
}

// The name of a node with operands; nothing for one that stands bare.
#[tactic(auto, unfolding(crate::specs::Listing::name))]
pub fn name(k: Kind) -> &'static [u8]
    ensures { result.now ≡ name k }
{
    match k {
        Kind::Op(o) => operator_name(o),
        Kind::Fby(_) => b"fby",
        Kind::Rec(_) => b"rec",
        Kind::Let => b"let",
        Kind::Check => b"check",
        Kind::Contract => b"contract",
        Kind::Const(_) | Kind::Input | Kind::Var | Kind::Unknown => b"",
    }
}

// A result as an answer: its bytes in the lent room and its length, or a refusal where the room is too short.
pub fn answer(whole: &[u8], room: &mut [u8]) -> Result<usize, Refusal>
    ensures { Answers (room_rule (length room.old) whole.now) whole.now room.old room.new result }
{
    if room.len() < whole.len() {
        return Err(Refusal::Lent(Lent::Room));
    }
    Ok(text::lent::put(room, 0, whole))
}
