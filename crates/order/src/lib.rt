// Needs within a tick, the house order, and the test of an order (rule 15).
#![tactic(auto)]

ghost use Rattle.std.specs.Prelude.{◌≡◌, ◌↔◌, IsTrue, false, true, ◌<◌, ◌≤◌, length, get_or, set, replicate, Some, None, MatchOption};
ghost use Rattle.finite.specs.Lowest.{lowest};
ghost use Rattle.table.specs.Order.{ready};
ghost use Rattle.sheet.specs.Ceilings.{max_nodes};
ghost use Rattle.sheet.specs.Ruling.{told};
ghost use Rattle.sheet.specs.Bytes.{nodes, kind_at};
ghost use Rattle.order.specs.Needs.{needs, named_need, need_count, Met, Given};
ghost use Rattle.order.specs.Orders.{house_order, ordered, HouseOrder};

use rules::Tables;
use sheet::{Kind, Lent, Node, Position, Refusal, Sheet};

// How many needs a node of a kind has.
pub fn need_count(k: Kind) -> usize
    ensures { result ≡ need_count k }
{
    match k {
        Kind::Op(o) => number::operands(o),
        Kind::Var | Kind::Rec(_) | Kind::Let | Kind::Check | Kind::Contract => 1,
        Kind::Const(_) | Kind::Input | Kind::Fby(_) | Kind::Unknown => 0,
    }
}

// Needs. That the sheet is accepted and the table has its ends is a premise of what these ensure, and no ghost field of a struct of the two:
// need, fill_house and test_order ask nothing of callers.

// What a VAR that names b needs.
#[tactic(auto, using(crate::proofs::FunctionLaws::operand_is), unfolding(crate::specs::Needs::named_need, sheet::specs::Bytes::arity))]
fn named_need(s: &[u8], ends: &[u16; Sheet::NODES], b: Node) -> Node
    ensures { Given s.now ends.now → b.0 < nodes s.now → result.0 ≡ named_need s.now b.0 (kind_at s.now b.0) }
{
    match sheet::kind_at(s, b) {
        Kind::Let => sheet::operand(ends, b, 0),
        Kind::Contract => sheet::operand(ends, b, 1),
        _ => b,
    }
}

// Need k of a node, k from 0.
#[tactic(auto, using(crate::proofs::FunctionLaws::operand_is, crate::proofs::NeedsLaws::need_at), unfolding(crate::specs::Needs::needs, sheet::specs::Bytes::arity, sheet::specs::Bytes::is_var))]
pub fn need(s: &[u8], ends: &[u16; Sheet::NODES], i: Node, k: usize) -> Node
    ensures { Given s.now ends.now → i.0 < nodes s.now → k < need_count (kind_at s.now i.0) → result.0 ≡ get_or (needs s.now i.0) k 0 }
{
    match sheet::kind_at(s, i) {
        Kind::Op(_) => sheet::operand(ends, i, k),
        Kind::Var => named_need(s, ends, sheet::binder(s, i)),
        Kind::Rec(_) => sheet::operand(ends, i, 0),
        Kind::Let | Kind::Check | Kind::Contract => sheet::operand(ends, i, 1),
        Kind::Const(_) | Kind::Input | Kind::Fby(_) | Kind::Unknown => i,
    }
}

// The nodes that are placed.
#[derive(Drop)]
struct Marks {
    marks: [bool; Sheet::NODES],
    ghost whole: { length marks ≡ max_nodes },
}

impl Marks {
    fn new() -> Marks
        ensures { result.marks ≡ replicate max_nodes false }
    {
        Marks {
            marks: [false; Sheet::NODES],
        }
    }

    fn has(&self, i: Node) -> bool
        ensures { result ≡ get_or self.now.marks i.0 false }
    {
        self.marks.get(usize::from(i)).copied().unwrap_or(false)
    }

    // By index. Tried: get_mut, whose contract doesn't say what the slice holds after a write.
    fn put(&mut self, i: Node)
        ensures { self.new.marks ≡ set self.old.marks i.0 true }
    {
        let at = usize::from(i);
        if at < self.marks.len() {
            self.marks[at] = true;
        }
    }
}

// The lowest node not yet placed whose needs are all placed. Both searches stand here, the inner one left by label: a form of the project's.
#[tactic(auto, using(crate::proofs::FunctionLaws::all_met, crate::proofs::FunctionLaws::not_met, finite::proofs::LowestLaws::lowest_none), unfolding(table::specs::Order::ready))]
fn next(s: &[u8], ends: &[u16; Sheet::NODES], placed: &Marks, n: u16) -> Option<Node>
    ensures { Given s.now ends.now → n ≤ nodes s.now → MatchOption result (lowest (ready (needs s.now) (λ k. get_or placed.now.marks k false)) 0 n ≡ n) (λ i. i.0 ≡ lowest (ready (needs s.now) (λ k. get_or placed.now.marks k false)) 0 n) }
{
    'nodes: for i in 0..n {
        if placed.has(Node(i)) {
            continue;
        }
        let count = need_count(sheet::kind_at(s, Node(i)));
        for k in 0..count {
            if !placed.has(need(s, ends, Node(i), k)) {
                continue 'nodes;
            }
        }
        return Some(Node(i));
    }
    None
}

// The house order, into a slice of as many entries as the sheet has nodes.
pub fn fill_house(s: &[u8], ends: &[u16; Sheet::NODES], order: &mut [u16])
    ensures { Given s.now ends.now → length order.old ≡ nodes s.now → order.new ≡ house_order s.now }
{
    if Sheet::NODES < order.len() {
        return;
    }
    let n = order.len() as u16;
    let mut placed = Marks::new();
    for entry in order.iter_mut() {
        let Some(i) = next(s, ends, &placed, n) else {
            return;
        };
        *entry = i.0;
        placed.put(i);
    }
}

// Whether a node's needs are all placed.
fn met(s: &[u8], ends: &[u16; Sheet::NODES], placed: &Marks, i: Node) -> bool
    ensures { Given s.now ends.now → i.0 < nodes s.now → (IsTrue result ↔ Met s.now placed.now.marks i.0) }
{
    let count = need_count(sheet::kind_at(s, i));
    (0..count).all(|k| placed.has(need(s, ends, i, k)))
}

// Rule 15: the lowest position whose entry is not under N, was seen earlier, or comes before a need.
#[tactic(auto, using(crate::proofs::FunctionLaws::none_tried))]
pub fn test_order(s: &[u8], ends: &[u16; Sheet::NODES], order: &[u16]) -> Result<(), Refusal>
    ensures { Given s.now ends.now → length order.now ≡ nodes s.now → told result ≡ ordered s.now order.now }
{
    let n = order.len();
    if Sheet::NODES < n {
        return Err(Refusal::Lent(Lent::Order));
    }
    let mut seen = Marks::new();
    for (p, entry) in order.iter().enumerate() {
        let i = Node(*entry);
        if n <= usize::from(i) || seen.has(i) || !met(s, ends, &seen, i) {
            return Err(Refusal::Order(Position(p as u16)));
        }
        seen.put(i);
    }
    Ok(())
}

// House order.
pub fn house_order(s: &[u8], order: &mut [u16]) -> Result<(), Refusal>
    ensures { HouseOrder s.now order.old result order.new }
{
    let mut tables = Tables::fresh();
    let z = rules::judge(s, &mut tables)?;
    if order.len() != z.nodes {
        return Err(Refusal::Lent(Lent::Order));
    }
    fill_house(s, &tables.ends, order);
    Ok(())
}
