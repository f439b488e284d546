// What sheetrun prints: from the bytes of standard input to the bytes of standard output, over the public operations alone.
#![tactic(auto)]

ghost use Rattle.std.specs.Prelude.{◌≡◌, [], ℕ, ◌*◌, ◌/◌, ◌+◌, ◌<◌, ◌≤◌, true, ℤ, length, IfOk};
ghost use Rattle.text.specs.Text.{Adds, Prints};
ghost use Rattle.sheet.specs.Ceilings.{max_nodes, max_columns, max_slots};
ghost use Rattle.sheet.specs.Ruling.{passed, passes, told, number_of, place_of};
ghost use Rattle.sheet.specs.Bytes as bytes;
ghost use Rattle.words.specs.Words.{refused_line};
ghost use Rattle.rules.specs.Check as check;
ghost use Rattle.meaning.specs.Equations.{Means};
ghost use Rattle.engine.specs.Rows.{row_rule, row_at};
ghost use Rattle.engine.specs.Operations.{max_rows, run_rules};
ghost use Rattle.console.specs.Sheetrun as printed;
ghost use Rattle.console.specs.Printing.{max_ints, max_line, LinesPut};

use arrayvec::ArrayVec;
use engine::RunState;
use meaning::Verdict;
use sheet::{Lent, Node, Refusal, Sheet};

// The sizes of an input and of what is printed of it.
#[derive(Clone, Copy, Debug, PartialEq, Eq)]
pub struct Input;

impl Input {
    // An input of more bytes is refused before anything else is looked at.
    pub const BYTES: usize = 32768;

    // The most ints that rows can have.
    pub const INTS: usize = RunState::ROWS * Sheet::COLUMNS;

    // Room for any text that is printed.
    pub const TEXT: usize = 8192;

    // Room for an input: one byte more than is looked at, so that a longer one is seen to be longer.
    pub fn bytes() -> [u8; Input::BYTES + 1]
        ensures { length result ≡ printed.max_input + 1 }
    {
        [0; Input::BYTES + 1]
    }

    pub fn text() -> [u8; Input::TEXT]
        ensures { length result ≡ printed.max_output }
    {
        [0; Input::TEXT]
    }

    // Ints to read the rows into. Written in place, they would stand whole in every goal.
    fn ints() -> [i32; Input::INTS]
        ensures { length result ≡ max_ints }
    {
        [0; Input::INTS]
    }
}

// A text in room for any that is printed.
type Text = ArrayVec<u8, { Input::TEXT }>;

// The lines.

pub fn put_ok<const N: usize>(out: &mut ArrayVec<u8, N>, z: Sheet)
    ensures { Adds N (printed.ok_line z.nodes z.columns z.slots z.root) out.old.items out.new.items }
{
    text::put(out, b"ok ");
    text::put_decimal(out, z.nodes as u64);
    text::put(out, b" ");
    text::put_decimal(out, z.columns as u64);
    text::put(out, b" ");
    text::put_decimal(out, z.slots as u64);
    text::put(out, b" ");
    words::put_type(out, z.root);
    text::put(out, b"\n");
}

fn put_verdict<const N: usize>(out: &mut ArrayVec<u8, N>, v: Verdict)
    ensures { Adds N (printed.verdict_word v) out.old.items out.new.items }
{
    let word: &[u8] = match v {
        Verdict::Pass => b"pass",
        Verdict::Fail => b"fail",
        Verdict::Caller => b"caller",
        Verdict::Body => b"body",
    };
    text::put(out, word);
}

#[tactic(auto, using(text::proofs::TextLaws::append_then, crate::proofs::LineLaws::failing_length))]
pub fn put_lowest<const N: usize>(out: &mut ArrayVec<u8, N>, lowest: Option<(Node, Verdict)>)
    ensures text { Adds N (printed.lowest_words lowest) out.old.items out.new.items }
    ensures short { length (printed.lowest_words lowest) ≤ 12 }
{
    match lowest {
        None => put_verdict(out, Verdict::Pass),
        Some((i, v)) => {
            put_verdict(out, v);
            text::put(out, b" ");
            text::put_decimal(out, u64::from(i.0));
        }
    }
}

#[tactic(auto, using(crate::proofs::LineLaws::tick_line_length))]
fn put_tick<const N: usize>(
    out: &mut ArrayVec<u8, N>,
    t: usize,
    value: i32,
    lowest: Option<(Node, Verdict)>,
)
    requires { t < 1000 }
    ensures text { Adds N (printed.tick_line t value lowest) out.old.items out.new.items }
    ensures short { length (printed.tick_line t value lowest) ≤ max_line }
{
    text::put_decimal(out, t as u64);
    text::put(out, b" ");
    text::put_integer(out, value);
    text::put(out, b" ");
    put_lowest(out, lowest);
    text::put(out, b"\n");
}

// The input.

// The sheet, cut by its own first two bytes, all of the input if there are fewer, and the rest.
#[tactic(auto, using(std::proofs::lemmas::List::take_min, std::proofs::lemmas::List::drop_min), unfolding(crate::specs::Sheetrun::sheet_in, crate::specs::Sheetrun::rest))]
fn cut(input: &[u8]) -> (&[u8], &[u8])
    ensures sheet { result.0.now ≡ printed.sheet_in input.now }
    ensures rest { result.1.now ≡ printed.rest input.now }
{
    let stated = u16::from_be_bytes([sheet::byte(input, 0), sheet::byte(input, 1)]);
    input.split_at(usize::from(stated).min(input.len()))
}

fn broken_rows(columns: usize, bytes: usize) -> bool
    requires { columns < 256 }
    ensures { result ≡ printed.broken_rows columns bytes }
{
    !bytes.is_multiple_of(4 * columns)
}

fn ticks_in(columns: usize, bytes: usize) -> usize
    requires { columns < 256 }
    ensures { result ≡ printed.ticks_by columns bytes }
{
    bytes.checked_div(4 * columns).unwrap_or(1)
}

#[tactic(auto, unfolding(crate::specs::Sheetrun::int_at))]
fn int_at(bytes: &[u8], k: usize) -> i32
    requires { k < max_ints }
    ensures { result ≡ printed.int_at bytes.now k }
{
    let at = 4 * k;
    i32::from_be_bytes([
        sheet::byte(bytes, at),
        sheet::byte(bytes, at + 1),
        sheet::byte(bytes, at + 2),
        sheet::byte(bytes, at + 3),
    ])
}

fn read_ints(bytes: &[u8], ints: &mut [i32])
    requires { (length ints.old ≡ length bytes.now / 4) × (length ints.old ≤ max_ints) }
    ensures { ints.new ≡ printed.ints bytes.now }
{
    for (k, int) in ints.iter_mut().enumerate() {
        *int = int_at(bytes, k);
    }
}

// The text.

// An accepted sheet, with Check's answer. Its rows and its ticks are handed on side by side: where it has no columns, the rows do not tell how
// many ticks there are.
#[derive(Clone, Copy)]
struct Accepted<'a> {
    s: &'a [u8],
    sheet: Sheet,
    ghost passes: { passes (check.rules s.now) ≡ true },
    ghost answered: { sheet ≡ check.sheet s.now },
    ghost few_nodes: { sheet.nodes ≤ max_nodes },
    ghost few_columns: { sheet.columns ≤ max_columns },
    ghost few_slots: { sheet.slots ≤ max_slots },
}

impl<'a> Accepted<'a> {
    // The ticks, from a fresh start in the house order, a line each. Only what the public operations promise is used: it shows that none of
    // these calls is refused. Tried with `?`: each leaves two goals of a refusal that never comes, and two callers get a Result that is never Err.
    #[tactic(auto, using(finite::proofs::ListLaws::length_part))]
    fn put_ticks(self, rows: &[i32], ticks: usize, out: &mut Text)
        requires { run_rules self.s.now rows.now ticks ≡ passed }
        ensures { (X : ℕ → ℕ → ℤ) → Means self.entry.s.now (row_at self.entry.s.now rows.now) X → LinesPut self.entry.s.now X ticks out.old.items out.new.items }
    {
        let s = self.s;
        let z = self.sheet;
        let mut order = Sheet::fresh();
        let mut cells = RunState::cells();
        let mut values = RunState::values();
        let order = &mut order[..z.nodes];
        let cells = &mut cells[..z.slots];
        let values = &mut values[..z.nodes];
        let _ = order::house_order(s, order);
        let _ = engine::start(s, cells);
        for t in 0..ticks {
            // Not chunks_exact: a sheet may have no columns. engine cuts a row by the same two lines; a function for both would say no more.
            let from = t * z.columns;
            let row = &rows[from..from + z.columns];
            let Ok(answer) = engine::tick(s, row, cells, order, values) else {
                return;
            };
            put_tick(out, t, answer.root, answer.lowest);
        }
    }

    // The text of rows that a run accepts: the first line, and the ticks. It is put into room that is lent from here on, since what is handed on by
    // value is copied at each hand.
    fn put_run(self, rows: &[i32], ticks: usize, text: &mut Text)
        requires ticks_value { run_rules self.s.now rows.now ticks ≡ passed }
        requires empty { text.old.items ≡ [] }
        ensures { printed.PrintedBy passed self.entry.s.now rows.now ticks text.new.items }
    {
        put_ok(text, self.sheet);
        self.put_ticks(rows, ticks, text);
    }

    // The text of whole rows, not too many, or the refusal: rule 13 is left.
    fn put_rows(self, rows: &[i32], ticks: usize, text: &mut Text) -> Result<(), Refusal>
        requires rows_len { (length rows.now ≡ ticks * bytes.columns self.s.now) × (ticks ≤ max_rows) }
        requires empty { text.old.items ≡ [] }
        ensures rules { told result ≡ row_rule self.entry.s.now rows.now }
        ensures text { IfOk result (λ _. printed.PrintedBy passed self.entry.s.now rows.now ticks text.new.items) }
    {
        let mut outputs = [0i32; RunState::ROWS];
        engine::run(self.s, rows, &mut outputs[..ticks])?;
        self.put_run(rows, ticks, text);
        Ok(())
    }

    // The same of the bytes of the rows.
    fn put_ints(self, rest: &[u8], ticks: usize, text: &mut Text) -> Result<(), Refusal>
        requires rest_len { (length rest.now / 4 ≡ ticks * bytes.columns self.s.now) × (ticks ≤ max_rows) × (length rest.now / 4 ≤ max_ints) }
        requires empty { text.old.items ≡ [] }
        ensures rules { told result ≡ row_rule self.entry.s.now (printed.ints rest.now) }
        ensures text { IfOk result (λ _. printed.PrintedBy passed self.entry.s.now (printed.ints rest.now) ticks text.new.items) }
    {
        let n = rest.len() / 4;
        let mut ints = Input::ints();
        read_ints(rest, &mut ints[..n]);
        self.put_rows(&ints[..n], ticks, text)
    }

    // The text of the bytes after the sheet, or the refusal.
    #[tactic(auto, using(crate::proofs::InputLaws::rest_broken, crate::proofs::InputLaws::rest_many, crate::proofs::InputLaws::rest_rows))]
    fn put_rest(self, rest: &[u8], text: &mut Text) -> Result<(), Refusal>
        requires { text.old.items ≡ [] }
        ensures rules { told result ≡ printed.rest_rules self.entry.s.now rest.now }
        ensures text { IfOk result (λ _. printed.PrintedBy passed self.entry.s.now (printed.ints rest.now) (printed.ticks_by (bytes.columns self.entry.s.now) (length rest.now)) text.new.items) }
    {
        let columns = self.sheet.columns;
        if broken_rows(columns, rest.len()) {
            return Err(Refusal::Lent(Lent::Rows));
        }
        let ticks = ticks_in(columns, rest.len());
        if RunState::ROWS < ticks {
            return Err(Refusal::Lent(Lent::Outputs));
        }
        self.put_ints(rest, ticks, text)
    }
}

// All that is printed of an input that no rule refuses, or the refusal.
#[tactic(auto, using(crate::proofs::InputLaws::input_over, crate::proofs::InputLaws::input_refused, crate::proofs::InputLaws::input_rest))]
fn put_accepted(input: &[u8], text: &mut Text) -> Result<(), Refusal>
    requires { text.old.items ≡ [] }
    ensures rules { told result ≡ printed.input_rules input.now }
    ensures text { IfOk result (λ _. printed.PrintedBy passed (printed.sheet_in input.now) (printed.rows_in input.now) (printed.ticks input.now) text.new.items) }
{
    if Input::BYTES < input.len() {
        return Err(Refusal::Length);
    }
    let (s, rest) = cut(input);
    let sheet = rules::check(s)?;
    let accepted = Accepted { s, sheet };
    accepted.put_rest(rest, text)
}

// All that sheetrun prints of an input, at the start of `out`; what is returned is its length. Into a lent slice, as it was: what callers lend
// and what is promised of it may not change.
pub fn sheetrun(input: &[u8], out: &mut [u8]) -> usize
    ensures { Prints printed.max_output (printed.Printed input.now) out.old out.new result }
{
    let mut text = ArrayVec::new();
    match put_accepted(input, &mut text) {
        Ok(()) => text::copy_out(text.as_slice(), out),
        Err(r) => words::lent::put_refusal(out, 0, r),
    }
}
