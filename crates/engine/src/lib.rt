// Start, Tick and Run over lent slices. Each takes the sheet's bytes and checks them itself: first all the tests, then the work.
#![tactic(auto)]

ghost use Rattle.std.specs.Prelude.{◌≡◌, true, cond, List, ℕ, ◌+◌, ◌*◌, ◌<◌, ◌≤◌, ℤ, pos, length, get_or, IfOk};
ghost use Rattle.finite.specs.Lists.{gather};
ghost use Rattle.number.specs.Operators.{truth};
ghost use Rattle.table.specs.Equations.{at, work};
ghost use Rattle.sheet.specs.Ceilings.{max_nodes, max_slots};
ghost use Rattle.sheet.specs.Ruling.{passes, told, lent};
ghost use Rattle.sheet.specs.declared.Node.{Node};
ghost use Rattle.sheet.specs.Bytes.{nodes, columns, kind_at, arity, operand, Ends};
ghost use Rattle.rules.specs.Scope.{fby_at};
ghost use Rattle.rules.specs.Slots.{slot, slots, Slotted};
ghost use Rattle.rules.specs.Check.{rules, sheet};
ghost use Rattle.order.specs.Needs.{needs, need_count, Given};
ghost use Rattle.order.specs.Orders.{RightOrder};
ghost use Rattle.meaning.specs.Equations as equations;
ghost use Rattle.meaning.specs.Local.{sides, local_value};
ghost use Rattle.meaning.specs.Cells.{start_cells, next_cells, held};
ghost use Rattle.meaning.specs.Verdicts as verdicts;
ghost use Rattle.engine.specs.Cells.{Gives};
ghost use Rattle.engine.specs.Rows as faults;
ghost use Rattle.engine.specs.Operations as operations;

use meaning::Verdict;
use rules::Tables;
use sheet::{Column, Kind, Lent, Node, Refusal, Sheet, Slot, ValueType};

// A tick's answer: the root's value, the count of nodes not PASS, and the lowest such node with its verdict, or that there is none.
#[derive(Clone, Copy, Debug, PartialEq, Eq)]
pub struct Answer {
    pub root: i32,
    pub failures: usize,
    pub lowest: Option<(Node, Verdict)>,
}

// A run: the ticks so far, and how many of them had a verdict other than PASS.
#[derive(Clone, Copy, Debug, PartialEq, Eq)]
pub struct RunState {
    pub ticks: usize,
    pub failing: usize,
    ghost fewer: { failing ≤ ticks },
}

impl RunState {
    pub const ROWS: usize = 256;

    // The ceiling of the code is that of the definitions.
    pub fn rows() -> usize
        ensures { result ≡ operations.max_rows }
    {
        Self::ROWS
    }

    fn fresh() -> Self
        ensures { (result.ticks ≡ 0) × (result.failing ≡ 0) }
    {
        Self {
            ticks: 0,
            failing: 0,
        }
    }

    // The run after one more tick.
    fn after(self, failed: bool) -> Self
        requires { self.ticks < operations.max_rows }
        ensures { (result.ticks ≡ self.ticks + 1) × (result.failing ≡ cond failed 1 0 + self.failing) }
    {
        Self {
            ticks: self.ticks + 1,
            failing: self.failing + usize::from(failed),
        }
    }

    pub fn cells() -> [i32; Sheet::SLOTS]
        ensures { length result ≡ max_slots }
    {
        [0; Sheet::SLOTS]
    }

    pub fn values() -> [i32; Sheet::NODES]
        ensures { length result ≡ max_nodes }
    {
        [0; Sheet::NODES]
    }
}

// An entry of a lent slice, 0 past the end: of the values by node, of the cells by slot, of the row by column.
fn entry<I: Into<usize>>(xs: &[i32], i: I) -> i32
    ensures { (n : ℕ) × I.converts i n × (result ≡ get_or xs.now n (pos 0)) }
{
    xs.get(i.into()).copied().unwrap_or(0)
}

// A node's constant or first value.
#[tactic(auto, unfolding(meaning::specs::Equations::literal))]
fn literal(s: &[u8], i: Node) -> i32
    ensures { result ≡ equations.literal s.now i.0 }
{
    number::of_bits(sheet::argument(s, i))
}

// Each slot gets what is given for its FBY. That the nodes are few is asked by itself here, of fill_start and of test_cells: a struct for that one
// fact would be made at each call.
fn fill<F: Fn(Node) -> i32>(s: &[u8], cells: &mut [i32], given: F)
    requires s_bound { nodes s.now ≤ max_nodes }
    requires cells_len { length cells.old ≡ slots s.now }
    requires callable { (i : Node) → i.0 < nodes s.now → F.pre given i }
    ensures { (f : ℕ → ℤ) → Gives s.now (F.post given) f → cells.new ≡ gather (fby_at s.now) f (nodes s.now) }
{
    // The slot is counted here. Tried: the cells zipped with the FBYs, a filtered range, over which the check takes no loop here.
    let mut j = 0;
    for i in 0..sheet::nodes(s) as u16 {
        if rules::is_fby(sheet::kind_at(s, Node(i))) {
            cells[j] = given(Node(i));
            j += 1;
        }
    }
}

// Each slot gets its FBY's first value.
fn fill_start(s: &[u8], cells: &mut [i32])
    requires s_bound { nodes s.now ≤ max_nodes }
    requires cells_len { length cells.old ≡ slots s.now }
    ensures { cells.new ≡ start_cells s.now }
{
    fill(s, cells, |i| literal(s, i));
}

// The work over an accepted sheet.

// An accepted sheet with its tables. That a node is one of the sheet's is asked of each method, as in rules. The lengths of the lent slices
// stand in the contracts: the contract of a tick names each lent slice by itself; a struct of &mut slices would hide them. `tables` is
// copied into a local, as such fields are in rules.
#[derive(Clone, Copy)]
struct Accepted<'a> {
    s: &'a [u8],
    tables: &'a Tables,
    ghost accepted: { passes (rules s.now) ≡ true },
    ghost ended: { Ends s.now tables.now.ends },
    ghost in_slots: { Slotted s.now tables.now.slots },
}

impl<'a> Accepted<'a> {
    // How many nodes there are.
    #[tactic(auto, using(crate::proofs::FunctionLaws::few))]
    fn nodes(self) -> u16
        ensures { result ≡ nodes self.entry.s.now }
    {
        sheet::nodes(self.s) as u16
    }

    // The values of operand k and of need k of a node, k from 0.

    #[tactic(auto, using(crate::proofs::FunctionLaws::few, crate::proofs::FunctionLaws::operand_is))]
    fn operand(self, values: &[i32], i: Node, k: usize) -> i32
        requires { i.0 < nodes self.s.now }
        ensures { k < arity (kind_at self.entry.s.now i.0) → result ≡ at (pos 0) values.now (operand self.entry.s.now i.0 k) }
    {
        let tables = self.tables;
        entry(values, sheet::operand(&tables.ends, i, k))
    }

    fn need(self, values: &[i32], i: Node, k: usize) -> i32
        requires { i.0 < nodes self.s.now }
        ensures { k < need_count (kind_at self.entry.s.now i.0) → result ≡ at (pos 0) values.now (get_or (needs self.entry.s.now i.0) k 0) }
    {
        let tables = self.tables;
        entry(values, order::need(self.s, &tables.ends, i, k))
    }

    fn slot(self, i: Node) -> Slot
        requires { i.0 < nodes self.s.now }
        ensures { result.0 ≡ slot self.entry.s.now i.0 }
    {
        let tables = self.tables;
        Slot(tables.slots.get(usize::from(i)).copied().unwrap_or(0))
    }

    // One node's value, from the row, the cells and the values of its needs.
    #[tactic(auto, using(crate::proofs::FunctionLaws::input_small), unfolding(order::specs::Needs::needs, order::specs::Needs::needs_by, meaning::specs::Local::local_value, meaning::specs::Local::local_by, meaning::specs::Equations::value_by, sheet::specs::Bytes::is_var, meaning::specs::Cells::held))]
    fn value(self, row: &[i32], cells: &[i32], values: &[i32], i: Node) -> i32
        requires { i.0 < nodes self.s.now }
        ensures { result ≡ local_value self.entry.s.now row.now (held self.entry.s.now cells.now i.0) (at (pos 0) values.now) i.0 }
    {
        match sheet::kind_at(self.s, i) {
            Kind::Const(_) => literal(self.s, i),
            Kind::Input => entry(row, sheet::input_column(self.s, i)),
            Kind::Op(o) => {
                let a = self.need(values, i, 0);
                let b = self.need(values, i, 1);
                let c = self.need(values, i, 2);
                number::apply(o, a, b, c)
            }
            Kind::Fby(_) => entry(cells, self.slot(i)),
            Kind::Var | Kind::Rec(_) | Kind::Let | Kind::Check | Kind::Contract => {
                self.need(values, i, 0)
            }
            Kind::Unknown => 0,
        }
    }

    // Every node's value, worked in a right order.
    #[tactic(auto, using(crate::proofs::FunctionLaws::work_more), unfolding(table::specs::Equations::work))]
    fn work_nodes(self, row: &[i32], cells: &[i32], order: &[u16], values: &mut [i32])
        requires right_order { RightOrder self.s.now order.now }
        requires values_len { length values.old ≡ nodes self.s.now }
        ensures { values.new ≡ work (pos 0) (sides self.entry.s.now row.now (held self.entry.s.now cells.now)) order.now values.old }
    {
        for at in order {
            let i = Node(*at);
            let value = self.value(row, cells, values, i);
            values[usize::from(i)] = value;
        }
    }

    // Each slot gets its FBY's operand's value.
    #[tactic(auto, using(crate::proofs::FunctionLaws::few))]
    fn store(self, values: &[i32], cells: &mut [i32])
        requires { length cells.old ≡ slots self.s.now }
        ensures { cells.new ≡ next_cells self.entry.s.now (at (pos 0) values.now) }
    {
        fill(self.s, cells, |i| self.operand(values, i, 0));
    }

    // One tick: all values first, then the cells.
    fn step(self, row: &[i32], order: &[u16], cells: &mut [i32], values: &mut [i32])
        requires right_order { RightOrder self.s.now order.now }
        requires cells_len { length cells.old ≡ slots self.s.now }
        requires values_len { length values.old ≡ nodes self.s.now }
        ensures { operations.Worked self.entry.s.now row.now cells.old cells.new values.new }
    {
        self.work_nodes(row, cells, order, values);
        self.store(values, cells);
    }

    // The verdicts, once all values are there.

    fn operand_truth(self, values: &[i32], i: Node, k: usize) -> bool
        requires { i.0 < nodes self.s.now }
        ensures { k < arity (kind_at self.entry.s.now i.0) → result ≡ truth (at (pos 0) values.now (operand self.entry.s.now i.0 k)) }
    {
        number::truth(self.operand(values, i, k))
    }

    #[tactic(auto, unfolding(meaning::specs::Verdicts::verdict, meaning::specs::Verdicts::verdict_by, sheet::specs::Bytes::arity))]
    fn verdict_of(self, values: &[i32], i: Node) -> Verdict
        requires { i.0 < nodes self.s.now }
        ensures { result ≡ verdicts.verdict self.entry.s.now (at (pos 0) values.now) i.0 }
    {
        match sheet::kind_at(self.s, i) {
            Kind::Check if !self.operand_truth(values, i, 0) => Verdict::Fail,
            Kind::Contract if !self.operand_truth(values, i, 0) => Verdict::Caller,
            Kind::Contract if !self.operand_truth(values, i, 2) => Verdict::Body,
            _ => Verdict::Pass,
        }
    }

    #[tactic(auto, using(crate::proofs::FunctionLaws::fails_is, finite::proofs::CountLaws::count_step_yes, finite::proofs::CountLaws::count_step_no, finite::proofs::CountLaws::count_le), unfolding(meaning::specs::Verdicts::failures))]
    fn failures(self, values: &[i32]) -> usize
        ensures { result ≡ verdicts.failures self.entry.s.now (at (pos 0) values.now) }
    {
        // Tried: the range filtered and counted. The contracts of std say what its items are place by place, and not as a list that count
        // could be tied to.
        let mut count = 0;
        for i in 0..self.nodes() {
            if self.verdict_of(values, Node(i)) != Verdict::Pass {
                count += 1;
            }
        }
        count
    }

    #[tactic(auto, using(crate::proofs::FunctionLaws::fails_is, crate::proofs::FunctionLaws::first_fails, crate::proofs::FunctionLaws::none_fails))]
    fn lowest(self, values: &[i32]) -> Option<(Node, Verdict)>
        ensures { result ≡ verdicts.lowest_failing self.entry.s.now (at (pos 0) values.now) }
    {
        for i in 0..self.nodes() {
            let verdict = self.verdict_of(values, Node(i));
            if verdict != Verdict::Pass {
                return Some((Node(i), verdict));
            }
        }
        None
    }

    #[tactic(auto, unfolding(crate::specs::Operations::answer_of))]
    fn answer(self, values: &[i32]) -> Answer
        ensures { result ≡ operations.answer_of self.entry.s.now (at (pos 0) values.now) }
    {
        Answer {
            root: entry(values, Node(0)),
            failures: self.failures(values),
            lowest: self.lowest(values),
        }
    }

    // The ticks of a run, from fresh cells in the house order, over slices of the right lengths.
    #[tactic(auto, using(crate::proofs::FunctionLaws::few))]
    fn run_rows(
        self,
        rows: &[i32],
        order: &mut [u16],
        cells: &mut [i32],
        values: &mut [i32],
        outputs: &mut [i32],
    ) -> usize
        requires order_len { length order.old ≡ nodes self.s.now }
        requires cells_len { length cells.old ≡ slots self.s.now }
        requires values_len { length values.old ≡ nodes self.s.now }
        requires rows_len { (length rows.now ≡ length outputs.old * columns self.s.now) × (length outputs.old ≤ operations.max_rows) }
        ensures { operations.WorkedAll self.entry.s.now rows.now (length outputs.old) (Ok result) outputs.new }
    {
        let tables = self.tables;
        order::fill_house(self.s, &tables.ends, order);
        fill_start(self.s, cells);
        let columns = sheet::columns(self.s);
        let mut run = RunState::fresh();
        for (t, output) in outputs.iter_mut().enumerate() {
            // Not chunks_exact: a sheet may have no columns.
            let from = t * columns;
            self.step(&rows[from..from + columns], order, cells, values);
            *output = entry(values, Node(0));
            run = run.after(0 < self.failures(values));
        }
        run.failing
    }
}

// The tests.

fn faulty(t: ValueType, v: i32) -> bool
    ensures { result ≡ faults.faulty t v }
{
    t == ValueType::Bool && !matches!(v, 0 | 1)
}

// Rule 13, over rows laid end to end.
#[tactic(auto, using(sheet::proofs::RulingLaws::each_passes), unfolding(crate::specs::Rows::row_rule, crate::specs::Rows::bad_entry))]
fn test_rows(s: &[u8], rows: &[i32]) -> Result<(), Refusal>
    requires { columns s.now ≡ 0 → length rows.now ≡ 0 }
    ensures { told result ≡ faults.row_rule s.now rows.now }
{
    let columns = sheet::columns(s);
    for (at, v) in rows.iter().enumerate() {
        let c = Column((at % columns) as u16);
        if faulty(sheet::column_type(s, c), *v) {
            return Err(Refusal::Row(at));
        }
    }
    Ok(())
}

// Rule 14, slot by slot.
#[tactic(auto, unfolding(rules::specs::Slots::slot, finite::specs::Count::count))]
fn test_cells(s: &[u8], cells: &[i32]) -> Result<(), Refusal>
    requires { nodes s.now ≤ max_nodes }
    ensures { told result ≡ faults.cell_rule s.now cells.now }
{
    // The slot is counted here. Tried: the FBYs' types as a chain with enumerate, whose invariant has to say how far the chain's range
    // has come, and of each node that it left out that it has no slot, which is no plainer.
    let mut j = 0;
    for i in 0..sheet::nodes(s) as u16 {
        if let Kind::Fby(t) = sheet::kind_at(s, Node(i)) {
            if faulty(t, entry(cells, Slot(j))) {
                return Err(Refusal::Cell(Slot(j)));
            }
            j += 1;
        }
    }
    Ok(())
}

// Rule 12 of one slice, by its length.
#[tactic(auto, unfolding(sheet::specs::Ruling::rule))]
fn test_length(slice: Lent, size: usize, right: usize) -> Result<(), Refusal>
    ensures result_value { told result ≡ lent slice size right }
    ensures right { IfOk result (λ _. size ≡ right) }
{
    if size != right {
        return Err(Refusal::Lent(slice));
    }
    Ok(())
}

// Rules 12 to 15 of a tick.
#[tactic(auto, using(sheet::proofs::RulingLaws::then_refused, sheet::proofs::RulingLaws::then_next), unfolding(crate::specs::Operations::tick_tests, crate::specs::Operations::lent_rules, rules::specs::Check::sheet))]
fn test_tick(
    s: &[u8],
    z: Sheet,
    ends: &[u16; Sheet::NODES],
    row: &[i32],
    cells: &[i32],
    order: &[u16],
    values_len: usize,
) -> Result<(), Refusal>
    requires given { Given s.now ends.now }
    requires z_value { z ≡ sheet s.now }
    ensures { told result ≡ operations.tick_tests s.now row.now cells.now order.now values_len }
{
    test_length(Lent::Rows, row.len(), z.columns)?;
    test_length(Lent::Cells, cells.len(), z.slots)?;
    test_length(Lent::Order, order.len(), z.nodes)?;
    test_length(Lent::Values, values_len, z.nodes)?;
    test_rows(s, row)?;
    test_cells(s, cells)?;
    order::test_order(s, ends, order)
}

// Rules 12 and 13 of a run.
#[tactic(auto, using(sheet::proofs::RulingLaws::then_refused, sheet::proofs::RulingLaws::then_next), unfolding(sheet::specs::Ruling::rule, crate::specs::Operations::run_tests))]
fn test_run(s: &[u8], rows: &[i32], ticks: usize) -> Result<(), Refusal>
    ensures { told result ≡ operations.run_tests s.now rows.now ticks }
{
    let columns = sheet::columns(s);
    if ticks.checked_mul(columns) != Some(rows.len()) {
        return Err(Refusal::Lent(Lent::Rows));
    }
    if RunState::ROWS < ticks {
        return Err(Refusal::Lent(Lent::Outputs));
    }
    test_rows(s, rows)
}

// START

#[tactic(auto, using(crate::proofs::OperationLaws::nodes_by, crate::proofs::OperationLaws::few_nodes, crate::proofs::OperationLaws::slots_by, crate::proofs::OperationLaws::start_refused, crate::proofs::OperationLaws::start_turned, crate::proofs::OperationLaws::start_done))]
pub fn start(s: &[u8], cells: &mut [i32]) -> Result<(), Refusal>
    ensures { operations.Start s.now cells.old result cells.new }
{
    let z = rules::check(s)?;
    let slots = z.slots;
    test_length(Lent::Cells, cells.len(), slots)?;
    fill_start(s, cells);
    Ok(())
}

// TICK

pub fn tick(
    s: &[u8],
    row: &[i32],
    cells: &mut [i32],
    order: &[u16],
    values: &mut [i32],
) -> Result<Answer, Refusal>
    ensures { operations.Tick s.now row.now cells.old order.now values.old result cells.new values.new }
{
    let mut tables = Tables::fresh();
    let z = rules::judge(s, &mut tables)?;
    test_tick(s, z, &tables.ends, row, cells, order, values.len())?;
    let accepted = Accepted { s, tables: &tables };
    accepted.step(row, order, cells, values);
    Ok(accepted.answer(values))
}

// RUN

#[tactic(auto, using(crate::proofs::OperationLaws::few_nodes, crate::proofs::OperationLaws::few_slots, finite::proofs::ListLaws::length_part, crate::proofs::OperationLaws::nodes_by, crate::proofs::OperationLaws::slots_by, crate::proofs::OperationLaws::run_refused, crate::proofs::OperationLaws::run_turned))]
pub fn run(s: &[u8], rows: &[i32], outputs: &mut [i32]) -> Result<usize, Refusal>
    ensures { operations.Run s.now rows.now outputs.old result outputs.new }
{
    let mut tables = Tables::fresh();
    let z = rules::judge(s, &mut tables)?;
    test_run(s, rows, outputs.len())?;
    let accepted = Accepted { s, tables: &tables };
    let mut order = Sheet::fresh();
    let mut cells = RunState::cells();
    let mut values = RunState::values();
    let n = z.nodes;
    let k = z.slots;
    Ok(accepted.run_rows(
        rows,
        &mut order[..n],
        &mut cells[..k],
        &mut values[..n],
        outputs,
    ))
}
