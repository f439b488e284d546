// Rules 7 to 11: depth, scope, types, guard and slots, each a test on nodes; and Check.
#![tactic(auto)]

ghost use Rattle.std.specs.Prelude.{◌≡◌, Bool, true, false, ◌<◌, ◌≤◌, length};
ghost use Rattle.sheet.specs.Ceilings.{max_nodes};
ghost use Rattle.sheet.specs.Ruling.{◌then◌, told, said, number_of, place_of, passed};
ghost use Rattle.sheet.specs.Bytes as bytes;
ghost use Rattle.sheet.specs.Form.{Formed};
ghost use Rattle.rules.specs.Scope as scope;
ghost use Rattle.rules.specs.Types as types;
ghost use Rattle.rules.specs.Slots as slots;
ghost use Rattle.rules.specs.Check as check;

use number::Operator;
use sheet::{Kind, Node, Refusal, Sheet, ValueType};

// The rules that are tested node by node.
#[derive(Clone, Copy, Debug, PartialEq, Eq)]
pub enum Rule {
    Depth,
    Scope,
    Types,
    Unguarded,
    Slots,
}

impl Rule {
    // The refusal of a rule at a node.
    fn refusal(self, at: Node) -> Refusal
        ensures { (number_of result ≡ check.rule_number self) × (place_of result ≡ at.0) }
    {
        match self {
            Rule::Depth => Refusal::Depth(at),
            Rule::Scope => Refusal::Scope(at),
            Rule::Types => Refusal::Types(at),
            Rule::Unguarded => Refusal::Unguarded(at),
            Rule::Slots => Refusal::Slots(at),
        }
    }
}

// Of what kind a node is. These are functions, so that each has the definition's name in its contract.

#[tactic(auto, unfolding(sheet::specs::Bytes::is_var))]
fn is_var(k: Kind) -> bool
    ensures { result ≡ bytes.is_var k }
{
    matches!(k, Kind::Var)
}

#[tactic(auto, unfolding(sheet::specs::Bytes::is_fby))]
pub fn is_fby(k: Kind) -> bool
    ensures { result ≡ bytes.is_fby k }
{
    matches!(k, Kind::Fby(_))
}

#[tactic(auto, unfolding(crate::specs::Scope::is_rec))]
fn is_rec(k: Kind) -> bool
    ensures { result ≡ scope.is_rec k }
{
    matches!(k, Kind::Rec(_))
}

#[tactic(auto, unfolding(crate::specs::Types::operator_type))]
fn operator_type(o: Operator, t: ValueType) -> ValueType
    ensures { result ≡ types.operator_type o t }
{
    match o {
        Operator::If => t,
        Operator::Add
        | Operator::Sub
        | Operator::Mul
        | Operator::Div
        | Operator::Neg
        | Operator::Mod => ValueType::Int,
        _ => ValueType::Bool,
    }
}

#[tactic(auto, unfolding(crate::specs::Types::fits))]
fn fits(o: Operator, a: ValueType, b: ValueType, c: ValueType) -> bool
    ensures { result ≡ types.fits o a b c }
{
    let bool = ValueType::Bool;
    let int = ValueType::Int;
    match o {
        Operator::Not => a == bool,
        Operator::And | Operator::Or | Operator::Xor => a == bool && b == bool,
        Operator::If => a == bool && b == c,
        Operator::Eq => a == b,
        Operator::Neg => a == int,
        _ => a == int && b == int,
    }
}

#[tactic(auto, unfolding(crate::specs::Types::well_typed))]
fn well_typed(k: Kind, a: ValueType, b: ValueType, c: ValueType) -> bool
    ensures { result ≡ types.well_typed k a b c }
{
    let bool = ValueType::Bool;
    match k {
        Kind::Op(o) => fits(o, a, b, c),
        Kind::Fby(t) | Kind::Rec(t) => a == t,
        Kind::Check => a == bool,
        Kind::Contract => a == bool && c == bool,
        _ => true,
    }
}

// A table of types, to be filled.
fn untyped() -> [ValueType; Sheet::NODES]
    ensures { length result ≡ max_nodes }
{
    [ValueType::Bool; Sheet::NODES]
}

// The slot of each FBY, and how many there are. The slot is counted beside the loop: each entry is the count so far, the answer the whole count.
pub fn fill_slots(s: &[u8], table: &mut [u16; Sheet::NODES]) -> usize
    ensures { bytes.nodes s.now ≤ max_nodes → (result ≡ slots.slots s.now) × slots.Slotted s.now table.new }
{
    let n = sheet::nodes(s);
    if Sheet::NODES < n {
        return 0;
    }
    let mut slot: u16 = 0;
    for (i, entry) in table[..n].iter_mut().enumerate() {
        *entry = slot;
        if is_fby(sheet::kind_at(s, Node(i as u16))) {
            slot += 1;
        }
    }
    usize::from(slot)
}

// A sheet that passes rules 1 to 6, with the table of where each expression ends. A field that is a reference is copied into a local before
// it is indexed or lent on as a slice, which the check doesn't cover of the field itself.
#[derive(Clone, Copy)]
struct Tree<'a> {
    s: &'a [u8],
    ends: &'a [u16; Sheet::NODES],
    ghost formed: { Formed s.now },
    ghost ended: { bytes.Ends s.now ends.now },
}

// A Node is a number. That it is one of this sheet's (i_bound) is asked of each method that goes by a table there: whoever calls has just
// taken it from the range of nodes, from operand or from binder, and a type of its own would have to be proved at each of these.
impl<'a> Tree<'a> {
    fn kind(self, i: Node) -> Kind
        ensures { result ≡ bytes.kind_at self.entry.s.now i.0 }
    {
        sheet::kind_at(self.s, i)
    }

    fn arity(self, i: Node) -> usize
        ensures { result ≡ bytes.arity_at self.entry.s.now i.0 }
    {
        sheet::arity(self.kind(i))
    }

    // Operand k of a node, and the node just past an expression.

    #[tactic(auto, using(sheet::proofs::SheetLaws::operand_by_table))]
    fn operand(self, i: Node, k: usize) -> Node
        ensures { i.0 < bytes.nodes self.entry.s.now → k < bytes.arity_at self.entry.s.now i.0 → result.0 ≡ bytes.operand self.entry.s.now i.0 k }
    {
        sheet::operand(self.ends, i, k)
    }

    fn end(self, i: Node) -> Node
        ensures { i.0 < bytes.nodes self.entry.s.now → result.0 ≡ bytes.end_of self.entry.s.now i.0 }
    {
        let ends = self.ends;
        Node(ends.get(usize::from(i)).copied().unwrap_or(0))
    }

    // A node's operands all get one number.
    fn hand_down(self, i: Node, over: u16, table: &mut [u16; Sheet::NODES])
        requires i_bound { i.0 < bytes.nodes self.s.now }
        ensures { scope.HandedDown self.entry.s.now i.0 (bytes.arity_at self.entry.s.now i.0) over table.old table.new }
    {
        for k in 0..self.arity(i) {
            table[usize::from(self.operand(i, k))] = over;
        }
    }

    // How many nodes that count stand above each node.
    fn fill_overs<F: Fn(Node) -> bool>(self, counts: F, table: &mut [u16; Sheet::NODES])
        requires callable { (i : _) → i.0 < bytes.nodes self.s.now → F.pre counts i }
        ensures { (delays_only : Bool) → scope.Tests self.entry.s.now (F.post counts) (scope.counted self.entry.s.now delays_only) → scope.Overs self.entry.s.now delays_only table.new }
    {
        table[0] = 0;
        for i in 0..sheet::nodes(self.s) as u16 {
            let above = table[usize::from(i)];
            let over = above + u16::from(counts(Node(i)));
            self.hand_down(Node(i), over, table);
        }
    }

    // Depth.
    #[tactic(auto, unfolding(crate::specs::Check::breaks, crate::specs::Scope::depth, crate::specs::Scope::counted))]
    fn too_deep(self, overs: &[u16; Sheet::NODES], i: Node) -> bool
        requires overs { scope.Overs self.s.now false overs.now }
        requires i_bound { i.0 < bytes.nodes self.s.now }
        ensures { result ≡ check.breaks self.entry.s.now Rule.Depth i.0 }
    {
        Sheet::DEPTH < 1 + usize::from(overs[usize::from(i)])
    }

    // Scope.

    // Node i lies in operand k of node b.
    #[tactic(auto, using(sheet::proofs::SheetLaws::operand_node), unfolding(sheet::specs::Bytes::lies))]
    fn lies(self, b: Node, k: usize, i: Node) -> bool
        ensures { b.0 < bytes.nodes self.entry.s.now → k < bytes.arity_at self.entry.s.now b.0 → result ≡ bytes.lies self.entry.s.now b.0 k i.0 }
    {
        let first = self.operand(b, k);
        (first.0..self.end(first).0).contains(&i.0)
    }

    #[tactic(auto, unfolding(crate::specs::Scope::scoped, crate::specs::Scope::binds, sheet::specs::Bytes::arity))]
    fn scoped(self, i: Node) -> bool
        ensures { result ≡ scope.scoped self.entry.s.now (bytes.argument self.entry.s.now i.0) i.0 }
    {
        if sheet::nodes(self.s) <= sheet::argument(self.s, i) as usize {
            return false;
        }
        let b = sheet::binder(self.s, i);
        match self.kind(b) {
            Kind::Rec(_) => self.lies(b, 0, i),
            Kind::Let => self.lies(b, 1, i),
            Kind::Contract => self.lies(b, 2, i),
            _ => false,
        }
    }

    // Types.

    // The type of operand k of a node.
    fn operand_type(self, table: &[ValueType; Sheet::NODES], i: Node, k: usize) -> ValueType
        ensures { i.0 < bytes.nodes self.entry.s.now → k < bytes.arity_at self.entry.s.now i.0 → result ≡ types.type_in table.now (bytes.operand self.entry.s.now i.0 k) }
    {
        let at = usize::from(self.operand(i, k));
        table.get(at).copied().unwrap_or(ValueType::Bool)
    }

    // The type of what node b lends to the VARs that name it.
    #[tactic(auto, unfolding(crate::specs::Types::named_type, sheet::specs::Bytes::arity))]
    fn named_type(self, table: &[ValueType; Sheet::NODES], b: Node) -> ValueType
        requires b_bound { b.0 < bytes.nodes self.s.now }
        ensures { result ≡ types.named_type self.entry.s.now (types.type_in table.now) b.0 (bytes.kind_at self.entry.s.now b.0) }
    {
        match self.kind(b) {
            Kind::Rec(t) => t,
            Kind::Let => self.operand_type(table, b, 0),
            Kind::Contract => self.operand_type(table, b, 1),
            _ => ValueType::Bool,
        }
    }

    fn mistyped(self, table: &[ValueType; Sheet::NODES], i: Node) -> bool
        requires typed { types.Typed self.s.now table.now }
        requires i_bound { i.0 < bytes.nodes self.s.now }
        ensures { result ≡ check.breaks self.entry.s.now Rule.Types i.0 }
    {
        let a = self.operand_type(table, i, 0);
        let b = self.operand_type(table, i, 1);
        let c = self.operand_type(table, i, 2);
        !well_typed(self.kind(i), a, b, c)
    }

    // Slots.
    #[tactic(auto, unfolding(crate::specs::Check::breaks))]
    fn slotless(self, table: &[u16; Sheet::NODES], i: Node) -> bool
        requires slotted { slots.Slotted self.s.now table.now }
        requires i_bound { i.0 < bytes.nodes self.s.now }
        ensures { result ≡ check.breaks self.entry.s.now Rule.Slots i.0 }
    {
        is_fby(self.kind(i)) && Sheet::SLOTS <= usize::from(table[usize::from(i)])
    }

    // A rule over all nodes, where `breaks` tests one. `rule` chooses no step: it only names the refusal.
    #[tactic(auto, using(sheet::proofs::RulingLaws::each_passes))]
    fn ruled<F: Fn(Node) -> bool>(self, rule: Rule, breaks: F) -> Result<(), Refusal>
        requires callable { (i : _) → i.0 < bytes.nodes self.s.now → F.pre breaks i }
        requires tests { (i : _) (b : Bool) → i.0 < bytes.nodes self.s.now → F.post breaks i b → b ≡ check.breaks self.s.now rule i.0 }
        ensures { told result ≡ check.ruled self.entry.s.now rule }
    {
        for i in 0..sheet::nodes(self.s) as u16 {
            if breaks(Node(i)) {
                return Err(rule.refusal(Node(i)));
            }
        }
        Ok(())
    }

    // Rule 7.
    fn depth(self) -> Result<(), Refusal>
        ensures { told result ≡ check.ruled self.entry.s.now Rule.Depth }
    {
        let mut overs = Sheet::fresh();
        self.fill_overs(|_| true, &mut overs);
        self.ruled(Rule::Depth, |i| self.too_deep(&overs, i))
    }

    // Rule 8.
    #[tactic(auto, unfolding(crate::specs::Check::breaks))]
    fn scope(self) -> Result<(), Refusal>
        ensures { told result ≡ check.ruled self.entry.s.now Rule.Scope }
    {
        self.ruled(Rule::Scope, |i| is_var(self.kind(i)) && !self.scoped(i))
    }

    // Rules 7 to 10. Where they hold, the table has the types.
    #[tactic(auto, using(sheet::proofs::RulingLaws::then_refused, sheet::proofs::RulingLaws::then_next), unfolding(crate::specs::Check::tree_rules))]
    fn tree_rules(self, table: &mut [ValueType; Sheet::NODES]) -> Result<(), Refusal>
        ensures result_value { told result ≡ check.tree_rules self.entry.s.now }
        ensures typed { check.tree_rules self.entry.s.now ≡ passed → types.Typed self.entry.s.now table.new }
    {
        self.depth()?;
        self.scope()?;
        ScopedTree { tree: self }.types_and_guard(table)
    }
}

// A tree of which every VAR names a node that it may name.
#[derive(Clone, Copy)]
struct ScopedTree<'a> {
    tree: Tree<'a>,
    ghost scoped: { check.Scoped tree.s.now },
}

impl<'a> ScopedTree<'a> {
    // The node that a VAR names.
    fn binder(self, i: Node) -> Node
        ensures { i.0 < bytes.nodes self.entry.tree.s.now → bytes.is_var (bytes.kind_at self.entry.tree.s.now i.0) ≡ true → (result.0 ≡ bytes.argument self.entry.tree.s.now i.0) × (result.0 < bytes.nodes self.entry.tree.s.now) }
    {
        sheet::binder(self.tree.s, i)
    }

    // The type of node i, by the types of the nodes that it goes by.
    #[tactic(auto, using(crate::proofs::TypeLaws::operator_local, crate::proofs::FunctionLaws::input_small), unfolding(crate::specs::Types::type_by, sheet::specs::Bytes::arity, sheet::specs::Bytes::is_var))]
    fn type_by(self, table: &[ValueType; Sheet::NODES], i: Node) -> ValueType
        requires i_bound { i.0 < bytes.nodes self.tree.s.now }
        ensures { result ≡ types.type_rule self.entry.tree.s.now i.0 (types.type_in table.now) }
    {
        let tree = self.tree;
        match tree.kind(i) {
            Kind::Const(t) | Kind::Fby(t) | Kind::Rec(t) => t,
            Kind::Input => sheet::column_type(tree.s, sheet::input_column(tree.s, i)),
            Kind::Var => tree.named_type(table, self.binder(i)),
            Kind::Op(o) => operator_type(o, tree.operand_type(table, i, 1)),
            Kind::Let | Kind::Check | Kind::Contract => tree.operand_type(table, i, 1),
            Kind::Unknown => ValueType::Bool,
        }
    }

    // The types of an expression's nodes, operands first, left to right.
    fn settle(self, i: Node, table: &mut [ValueType; Sheet::NODES])
        requires i_bound { i.0 < bytes.nodes self.tree.s.now }
        requires settled_before { types.SettledBefore self.tree.s.now i.0 table.old }
        ensures { types.Settled self.entry.tree.s.now i.0 (bytes.end_of self.entry.tree.s.now i.0) table.old table.new }
    {
        let mut next = Node(i.0 + 1);
        for _ in 0..self.tree.arity(i) {
            self.settle(next, table);
            next = self.tree.end(next);
        }
        table[usize::from(i)] = self.type_by(table, i);
    }

    // Guard: more FBYs stand above the VAR than above the REC that it names.
    #[tactic(auto, unfolding(crate::specs::Check::breaks))]
    fn unguarded(self, overs: &[u16; Sheet::NODES], i: Node) -> bool
        requires overs { scope.Overs self.tree.s.now true overs.now }
        requires i_bound { i.0 < bytes.nodes self.tree.s.now }
        ensures { result ≡ check.breaks self.entry.tree.s.now Rule.Unguarded i.0 }
    {
        if !is_var(self.tree.kind(i)) {
            return false;
        }
        let b = self.binder(i);
        if !is_rec(self.tree.kind(b)) {
            return false;
        }
        overs[usize::from(i)] <= overs[usize::from(b)]
    }

    // Rule 10.
    fn guard(self) -> Result<(), Refusal>
        ensures { told result ≡ check.ruled self.entry.tree.s.now Rule.Unguarded }
    {
        let mut overs = Sheet::fresh();
        self.tree
            .fill_overs(|i| is_fby(self.tree.kind(i)), &mut overs);
        self.tree
            .ruled(Rule::Unguarded, |i| self.unguarded(&overs, i))
    }

    // Rules 9 and 10. The table gets the types.
    #[tactic(auto, using(sheet::proofs::RulingLaws::then_refused, sheet::proofs::RulingLaws::then_next))]
    fn types_and_guard(self, table: &mut [ValueType; Sheet::NODES]) -> Result<(), Refusal>
        ensures result_value { told result ≡ check.ruled self.entry.tree.s.now Rule.Types then check.ruled self.entry.tree.s.now Rule.Unguarded }
        ensures typed { types.Typed self.entry.tree.s.now table.new }
    {
        self.settle(Node(0), table);
        self.tree
            .ruled(Rule::Types, |i| self.tree.mistyped(table, i))?;
        self.guard()
    }
}

// What an accepted sheet is worked by, node by node: where its expression ends, and an FBY's slot.
#[derive(Drop)]
pub struct Tables {
    pub ends: [u16; Sheet::NODES],
    pub slots: [u16; Sheet::NODES],
}

impl Tables {
    // Tables to be filled.
    pub fn fresh() -> Tables
        ensures { (length result.ends ≡ max_nodes) × (length result.slots ≡ max_nodes) }
    {
        Tables {
            ends: Sheet::fresh(),
            slots: Sheet::fresh(),
        }
    }
}

// Rules 1 to 11. Where they hold, the tables are filled.
#[tactic(auto, using(sheet::proofs::RulingLaws::then_refused, sheet::proofs::RulingLaws::then_next), unfolding(crate::specs::Check::rules))]
pub fn judge(s: &[u8], tables: &mut Tables) -> Result<Sheet, Refusal>
    ensures result_value { said result ≡ check.check s.now }
    ensures tables { check.rules s.now ≡ passed → check.Tables s.now tables.new.ends tables.new.slots }
{
    sheet::form(s)?;
    sheet::fill_ends(s, &mut tables.ends);
    let tree = Tree {
        s,
        ends: &tables.ends,
    };
    let mut types = untyped();
    tree.tree_rules(&mut types)?;
    let slots = fill_slots(s, &mut tables.slots);
    tree.ruled(Rule::Slots, |i| tree.slotless(&tables.slots, i))?;
    Ok(Sheet {
        nodes: sheet::nodes(s),
        columns: sheet::columns(s),
        slots,
        root: types[0],
    })
}

// Check.
pub fn check(s: &[u8]) -> Result<Sheet, Refusal>
    ensures { said result ≡ check.check s.now }
{
    judge(s, &mut Tables::fresh())
}
