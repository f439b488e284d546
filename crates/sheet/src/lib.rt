// A sheet's bytes: ceilings, the four counts, refusals, records, rules 1 to 6, and where each expression ends.
#![tactic(auto)]

ghost use Rattle.std.specs.Prelude.{◌≡◌, ◌∷◌, [], ◌<◌, ◌≤◌, ◌+◌, length, unwrap_or, IfSome};
ghost use Rattle.sheet.specs.Ceilings.{ceilings, max_nodes};
ghost use Rattle.sheet.specs.Ruling.{each, told, number_of, place_of};
ghost use Rattle.sheet.specs.Prefix.{end};
ghost use Rattle.sheet.specs.Bytes as bytes;
ghost use Rattle.sheet.specs.Form as form;

use number::Operator;

// The four counts.

#[derive(Clone, Copy, Debug, PartialEq, Eq)]
pub struct Node(pub u16);

#[derive(Clone, Copy, Debug, PartialEq, Eq)]
pub struct Slot(pub u16);

#[derive(Clone, Copy, Debug, PartialEq, Eq)]
pub struct Column(pub u16);

#[derive(Clone, Copy, Debug, PartialEq, Eq)]
pub struct Position(pub u16);

#[derive(Clone, Copy, Debug, PartialEq, Eq)]
pub enum ValueType {
    Bool,
    Int,
}

// An accepted sheet: its node count, column count, slot count and the root's type.
#[derive(Clone, Copy, Debug, PartialEq, Eq)]
pub struct Sheet {
    pub nodes: usize,
    pub columns: usize,
    pub slots: usize,
    pub root: ValueType,
}

#[derive(Clone, Copy, Debug, PartialEq, Eq)]
pub struct Ceilings {
    pub columns: usize,
    pub nodes: usize,
    pub depth: usize,
    pub slots: usize,
}

impl Sheet {
    pub const COLUMNS: usize = 16;

    pub const NODES: usize = 512;

    pub const DEPTH: usize = 32;

    pub const SLOTS: usize = 64;

    // A table of nodes, to be filled. Written in place, it would stand whole in every goal.
    pub fn fresh() -> [u16; Sheet::NODES]
        ensures { length result ≡ max_nodes }
    {
        [0; Sheet::NODES]
    }

    // The ceilings of the code are those of the definitions.
    pub fn ceilings() -> Ceilings
        ensures { result ≡ ceilings }
    {
        Ceilings {
            columns: Self::COLUMNS,
            nodes: Self::NODES,
            depth: Self::DEPTH,
            slots: Self::SLOTS,
        }
    }
}

// A record's kind with its code; Unknown where the table of kinds has no such kind, code or operator. It is a kind and no None, since the
// definitions give every record's bytes a kind (arity, needs, value, ..), and every theorem goes by them.
#[derive(Clone, Copy, Debug, PartialEq, Eq)]
pub enum Kind {
    Const(ValueType),
    Input,
    Var,
    Op(Operator),
    Fby(ValueType),
    Rec(ValueType),
    Let,
    Check,
    Contract,
    Unknown,
}

// A lent slice of a wrong length, by its place.
#[derive(Clone, Copy, Debug, PartialEq, Eq)]
pub enum Lent {
    Rows = 1,
    Cells = 2,
    Order = 3,
    Values = 4,
    Outputs = 5,
    Room = 7,
}

// A refusal: the rule, with its place where it has several.
#[derive(Clone, Copy, Debug, PartialEq, Eq)]
pub enum Refusal {
    Length,
    Version,
    Columns(usize),
    Body,
    Record(Node),
    Shape(Node),
    Depth(Node),
    Scope(Node),
    Types(Node),
    Unguarded(Node),
    Slots(Node),
    Lent(Lent),
    Row(usize),
    Cell(Slot),
    Order(Position),
    Text,
}

impl Refusal {
    // A refusal's number and place.

    pub fn number(self) -> u8
        ensures { result ≡ number_of self }
    {
        match self {
            Refusal::Length => 1,
            Refusal::Version => 2,
            Refusal::Columns(_) => 3,
            Refusal::Body => 4,
            Refusal::Record(_) => 5,
            Refusal::Shape(_) => 6,
            Refusal::Depth(_) => 7,
            Refusal::Scope(_) => 8,
            Refusal::Types(_) => 9,
            Refusal::Unguarded(_) => 10,
            Refusal::Slots(_) => 11,
            Refusal::Lent(_) => 12,
            Refusal::Row(_) => 13,
            Refusal::Cell(_) => 14,
            Refusal::Order(_) => 15,
            Refusal::Text => 16,
        }
    }

    pub fn place(self) -> usize
        ensures { result ≡ place_of self }
    {
        match self {
            Refusal::Length | Refusal::Body | Refusal::Text => 0,
            Refusal::Version => 2,
            Refusal::Columns(at) | Refusal::Row(at) => at,
            Refusal::Record(i)
            | Refusal::Shape(i)
            | Refusal::Depth(i)
            | Refusal::Scope(i)
            | Refusal::Types(i)
            | Refusal::Unguarded(i)
            | Refusal::Slots(i) => usize::from(i),
            Refusal::Lent(slice) => slice as usize,
            Refusal::Cell(j) => usize::from(j),
            Refusal::Order(p) => usize::from(p),
        }
    }
}

// A node's place in a table of nodes.
impl From<Node> for usize {
    ghost from_gives = { λ i n. n ≡ i.0 };

    fn from(i: Node) -> usize {
        usize::from(i.0)
    }
}

// A slot's place in the cells.
impl From<Slot> for usize {
    ghost from_gives = { λ j n. n ≡ j.0 };

    fn from(j: Slot) -> usize {
        usize::from(j.0)
    }
}

// A column's place in a row.
impl From<Column> for usize {
    ghost from_gives = { λ c n. n ≡ c.0 };

    fn from(c: Column) -> usize {
        usize::from(c.0)
    }
}

// A position's place in an order.
impl From<Position> for usize {
    ghost from_gives = { λ p n. n ≡ p.0 };

    fn from(p: Position) -> usize {
        usize::from(p.0)
    }
}

// The bytes.

// A byte, 0 past the end.
pub fn byte(s: &[u8], at: usize) -> u8
    ensures { result ≡ bytes.byte s.now at }
{
    s.get(at).copied().unwrap_or(0)
}

// How many columns a sheet states.
pub fn columns(s: &[u8]) -> usize
    ensures { (result ≡ bytes.columns s.now) × (result < 256) }
{
    usize::from(byte(s, 3))
}

#[tactic(auto, unfolding(crate::specs::Bytes::nodes))]
pub fn nodes(s: &[u8]) -> usize
    ensures { result ≡ bytes.nodes s.now }
{
    s.len().saturating_sub(4 + columns(s)) / 6
}

#[tactic(auto, unfolding(crate::specs::Bytes::start))]
fn start(s: &[u8], i: Node) -> usize
    ensures { (result ≡ bytes.start s.now i.0) × (result < 400000) }
{
    4 + columns(s) + 6 * usize::from(i)
}

// The table of kinds.

#[tactic(auto, unfolding(crate::specs::Bytes::column_type))]
pub fn column_type(s: &[u8], c: Column) -> ValueType
    ensures { result ≡ bytes.column_type s.now c.0 }
{
    if byte(s, 4 + usize::from(c.0)) == 0 {
        ValueType::Bool
    } else {
        ValueType::Int
    }
}

#[tactic(auto, unfolding(crate::specs::Bytes::kind_of))]
pub fn kind_of(kind: u8, code: u8) -> Kind
    ensures { result ≡ bytes.kind_of kind code }
{
    match (kind, code) {
        (0, 0) => Kind::Const(ValueType::Bool),
        (0, 1) => Kind::Const(ValueType::Int),
        (1, 0) => Kind::Input,
        (2, 0) => Kind::Var,
        (3, _) => Operator::try_from(code).map_or(Kind::Unknown, Kind::Op),
        (4, 0) => Kind::Fby(ValueType::Bool),
        (4, 1) => Kind::Fby(ValueType::Int),
        (5, 0) => Kind::Rec(ValueType::Bool),
        (5, 1) => Kind::Rec(ValueType::Int),
        (6, 0) => Kind::Let,
        (7, 0) => Kind::Check,
        (8, 0) => Kind::Contract,
        _ => Kind::Unknown,
    }
}

#[tactic(auto, unfolding(crate::specs::Bytes::kind_at))]
pub fn kind_at(s: &[u8], i: Node) -> Kind
    ensures { result ≡ bytes.kind_at s.now i.0 }
{
    let at = start(s, i);
    kind_of(byte(s, at), byte(s, at + 1))
}

#[tactic(auto, unfolding(crate::specs::Bytes::argument))]
pub fn argument(s: &[u8], i: Node) -> u32
    ensures { result ≡ bytes.argument s.now i.0 }
{
    let at = start(s, i) + 2;
    number::word(
        byte(s, at),
        byte(s, at + 1),
        byte(s, at + 2),
        byte(s, at + 3),
    )
}

// An argument as the number of a node or a column: where it is too large for one, the largest, which no sheet has. It is a number and no
// Option, since of an accepted sheet every such argument is one, and each caller but the scope rule would have to unwrap it.
fn number_of(a: u32) -> u16
    ensures { a < 65536 → result ≡ a }
{
    u16::try_from(a).unwrap_or(u16::MAX)
}

// The node that a VAR names. This and input_column are two functions, since nodes and columns are two of the four counts: a form of the project's.
pub fn binder(s: &[u8], i: Node) -> Node
    ensures { bytes.argument s.now i.0 < 65536 → result.0 ≡ bytes.argument s.now i.0 }
{
    Node(number_of(argument(s, i)))
}

// The column that an INPUT names.
pub fn input_column(s: &[u8], i: Node) -> Column
    ensures { bytes.argument s.now i.0 < 65536 → result.0 ≡ bytes.argument s.now i.0 }
{
    Column(number_of(argument(s, i)))
}

#[tactic(auto, unfolding(crate::specs::Bytes::arity))]
pub fn arity(k: Kind) -> usize
    ensures { result ≡ bytes.arity k }
{
    match k {
        Kind::Op(o) => number::operands(o),
        Kind::Fby(_) | Kind::Rec(_) => 1,
        Kind::Let | Kind::Check => 2,
        Kind::Contract => 3,
        _ => 0,
    }
}

fn holds(t: ValueType, a: u32) -> bool
    ensures { result ≡ form.holds t a }
{
    match t {
        ValueType::Bool => a <= 1,
        ValueType::Int => true,
    }
}

#[tactic(auto, unfolding(crate::specs::Form::known))]
fn known(columns: u32, k: Kind, a: u32) -> bool
    ensures { result ≡ form.known columns k a }
{
    match k {
        Kind::Const(t) | Kind::Fby(t) => holds(t, a),
        Kind::Input => a < columns,
        Kind::Var => true,
        Kind::Unknown => false,
        _ => a == 0,
    }
}

#[tactic(auto, unfolding(crate::specs::Form::bad_record))]
fn bad_record(s: &[u8], i: Node) -> bool
    ensures { result ≡ form.bad_record s.now i.0 }
{
    !known(u32::from(byte(s, 3)), kind_at(s, i), argument(s, i))
}

// Rules 1 to 4.

fn length_and_version(s: &[u8]) -> Result<(), Refusal>
    ensures { told result ≡ form.length_version s.now }
{
    let stated = u16::from_be_bytes([byte(s, 0), byte(s, 1)]);
    if s.len() < 4 || usize::from(stated) != s.len() {
        return Err(Refusal::Length);
    }
    if byte(s, 2) != 1 {
        return Err(Refusal::Version);
    }
    Ok(())
}

// No type byte is over 1.
#[tactic(auto, using(crate::proofs::RulingLaws::each_passes))]
fn type_bytes(s: &[u8]) -> Result<(), Refusal>
    ensures { told result ≡ each 3 (form.untyped s.now) 4 (bytes.columns s.now) }
{
    for at in 4..4 + columns(s) {
        if 1 < byte(s, at) {
            return Err(Refusal::Columns(at));
        }
    }
    Ok(())
}

fn column_types(s: &[u8]) -> Result<(), Refusal>
    ensures { told result ≡ form.column_types s.now }
{
    let columns = columns(s);
    if Sheet::COLUMNS < columns || s.len() < 4 + columns {
        return Err(Refusal::Columns(3));
    }
    type_bytes(s)
}

fn body(s: &[u8]) -> Result<(), Refusal>
    ensures { told result ≡ form.body s.now }
{
    let n = nodes(s);
    if n < 1 || Sheet::NODES < n || 4 + columns(s) + 6 * n != s.len() {
        return Err(Refusal::Body);
    }
    Ok(())
}

// Rule 5. That the nodes are few is asked by itself, here and of shape: body has just tested it, and a struct for that one fact would be made at
// each call.
#[tactic(auto, using(crate::proofs::RulingLaws::each_passes), unfolding(crate::specs::Form::records))]
fn records(s: &[u8]) -> Result<(), Refusal>
    requires { bytes.nodes s.now ≤ max_nodes }
    ensures { told result ≡ form.records s.now }
{
    for i in 0..nodes(s) as u16 {
        if bad_record(s, Node(i)) {
            return Err(Refusal::Record(Node(i)));
        }
    }
    Ok(())
}

// Rule 6.

// One expression from its first node: the node, then its operands in full, left to right, read by the same function. Answers the
// node just past it; None where the records run out.
fn expression(s: &[u8], n: u16, at: u16) -> Option<u16>
    requires { n ≤ max_nodes }
    ensures end { unwrap_or result (n + 1) ≡ end (bytes.arity_at s.now) n at }
    ensures within { IfSome result (λ k. k ≤ n) }
{
    if n <= at {
        return None;
    }
    let mut next = at + 1;
    for _ in 0..arity(kind_at(s, Node(at))) {
        next = expression(s, n, next)?;
    }
    Some(next)
}

fn shape(s: &[u8]) -> Result<(), Refusal>
    requires { bytes.nodes s.now ≤ max_nodes }
    ensures { told result ≡ form.shape s.now }
{
    let n = nodes(s) as u16;
    match expression(s, n, 0) {
        None => Err(Refusal::Shape(Node(n))),
        Some(k) if k < n => Err(Refusal::Shape(Node(k))),
        Some(_) => Ok(()),
    }
}

// Rules 1 to 6.
#[tactic(auto, using(crate::proofs::RulingLaws::then_refused, crate::proofs::RulingLaws::then_next, crate::proofs::FormLaws::body_few), unfolding(crate::specs::Form::form))]
pub fn form(s: &[u8]) -> Result<(), Refusal>
    ensures { told result ≡ form.form s.now }
{
    length_and_version(s)?;
    column_types(s)?;
    body(s)?;
    records(s)?;
    shape(s)
}

// Where each expression ends.

// Operand k of a node, k from 0, by the table of ends.
pub fn operand(ends: &[u16; Sheet::NODES], i: Node, k: usize) -> Node
    ensures { i.0 < max_nodes → result.0 ≡ bytes.operand_by ends.now i.0 k }
{
    if Sheet::NODES <= usize::from(i) {
        return Node(0);
    }
    let mut at = i.0 + 1;
    for _ in 0..k {
        at = ends.get(usize::from(at)).copied().unwrap_or(0);
    }
    Node(at)
}

// The table of ends, from the last node down: each from the ends of later nodes.
pub fn fill_ends(s: &[u8], ends: &mut [u16; Sheet::NODES])
    ensures { form.Formed s.now → bytes.Ends s.now ends.new }
{
    let n = nodes(s);
    if Sheet::NODES < n {
        return;
    }
    for at in (0..n).rev() {
        let i = Node(at as u16);
        ends[at] = operand(&*ends, i, arity(kind_at(s, i))).0;
    }
}
