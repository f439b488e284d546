// sheetop: runs any operation on the requests of an input, and prints its answer and the end contents of every lent slice.
#![tactic(auto)]

use arrayvec::ArrayVec;
use engine::Answer;
use sheet::Refusal;
use std::io;

// Why the requests end before the input does: one is bad, or a read or a write failed.
#[derive(Drop)]
enum End {
    BadRequest,
    Failed(io::Error),
}

impl From<io::Error> for End {
    fn from(e: io::Error) -> End {
        End::Failed(e)
    }
}

// The operations, by their letters.
#[derive(Clone, Copy, Debug, PartialEq, Eq)]
enum Operation {
    Check,
    House,
    Start,
    Tick,
    Run,
    Write,
    Read,
}

impl TryFrom<u8> for Operation {
    type Error = End;

    fn try_from(letter: u8) -> Result<Operation, End> {
        match letter {
            b'c' => Ok(Operation::Check),
            b'h' => Ok(Operation::House),
            b's' => Ok(Operation::Start),
            b't' => Ok(Operation::Tick),
            b'r' => Ok(Operation::Run),
            b'w' => Ok(Operation::Write),
            b'l' => Ok(Operation::Read),
            _ => Err(End::BadRequest),
        }
    }
}

// A request: its operation, and how many sheet bytes or bytes of text, ints of the rows, cells, order entries, and values, outputs or bytes
// of room it has.
#[derive(Clone, Copy)]
struct Request {
    operation: Operation,
    sheet: u16,
    rows: u16,
    cells: u16,
    order: u16,
    out: u16,
}

impl Request {
    const SHEET: usize = 16384;

    const ROWS: usize = 8192;

    const CELLS: usize = 1024;

    const ORDER: usize = 1024;

    const OUT: usize = 16384;

    // Each length is within its limit.
    fn is_within(self) -> bool {
        usize::from(self.sheet) <= Request::SHEET
            && usize::from(self.rows) <= Request::ROWS
            && usize::from(self.cells) <= Request::CELLS
            && usize::from(self.order) <= Request::ORDER
            && usize::from(self.out) <= Request::OUT
    }

    // Each length that the operation does not use is 0.
    fn is_fit(self) -> bool {
        match self.operation {
            Operation::Check => {
                self.rows == 0 && self.cells == 0 && self.order == 0 && self.out == 0
            }
            Operation::House => self.rows == 0 && self.cells == 0 && self.out == 0,
            Operation::Start => self.rows == 0 && self.order == 0 && self.out == 0,
            Operation::Tick => true,
            Operation::Run => self.cells == 0 && self.order == 0,
            Operation::Write | Operation::Read => {
                self.rows == 0 && self.cells == 0 && self.order == 0
            }
        }
    }
}

// What lent slices are filled with: values and outputs, whose bytes are all 0xaa, the writer's room and the reader's.

const INT_FILL: i32 = -1431655766;

const TEXT_FILL: u8 = b'#';

const BYTE_FILL: u8 = 0xaa;

// Reading.

fn fill<R: io::Read>(from: &mut R, bytes: &mut [u8]) -> Result<(), End> {
    if intake::read_full(from, bytes)? < bytes.len() {
        return Err(End::BadRequest);
    }
    Ok(())
}

// A number as a request has it.
trait Wire: Sized {
    fn read<R: io::Read>(from: &mut R) -> Result<Self, End>;
}

impl Wire for i32 {
    fn read<R: io::Read>(from: &mut R) -> Result<i32, End> {
        let mut bytes = [0u8; 4];
        fill(from, &mut bytes)?;
        Ok(i32::from_be_bytes(bytes))
    }
}

impl Wire for u16 {
    fn read<R: io::Read>(from: &mut R) -> Result<u16, End> {
        let mut bytes = [0u8; 2];
        fill(from, &mut bytes)?;
        Ok(u16::from_be_bytes(bytes))
    }
}

// The head of the next request; None where the input has no more.
fn read_request<R: io::Read>(from: &mut R) -> Result<Option<Request>, End> {
    let mut head = [0u8; 11];
    let got = intake::read_full(from, &mut head)?;
    if got == 0 {
        return Ok(None);
    }
    if got < head.len() {
        return Err(End::BadRequest);
    }
    // Not the pattern [letter, lengths @ ..] of an array: tried, and a proof with it isn't made yet.
    let mut lengths = &head[1..];
    let request = Request {
        operation: Operation::try_from(head[0])?,
        sheet: u16::read(&mut lengths)?,
        rows: u16::read(&mut lengths)?,
        cells: u16::read(&mut lengths)?,
        order: u16::read(&mut lengths)?,
        out: u16::read(&mut lengths)?,
    };
    if request.is_within() && request.is_fit() {
        Ok(Some(request))
    } else {
        Err(End::BadRequest)
    }
}

// The first so many entries of a room, within its limit.
fn first<T>(room: &mut [T], count: u16) -> Result<&mut [T], End> {
    room.get_mut(..usize::from(count)).ok_or(End::BadRequest)
}

// The first so many entries of a room, read.
fn read_slice<'a, R: io::Read, T: Wire + Copy>(
    from: &mut R,
    room: &'a mut [T],
    count: u16,
) -> Result<&'a mut [T], End> {
    let xs = first(room, count)?;
    for x in xs.iter_mut() {
        *x = T::read(from)?;
    }
    Ok(xs)
}

// Printing.

// A line of what is printed. One that gets long is written out in pieces.
type Line = ArrayVec<u8, 4096>;

// A slice's entry, as it is printed.
trait Entry {
    fn put(self, line: &mut Line);
}

impl Entry for i32 {
    fn put(self, line: &mut Line) {
        text::put_integer(line, self);
    }
}

impl Entry for u16 {
    fn put(self, line: &mut Line) {
        text::put_decimal(line, u64::from(self));
    }
}

fn hexadecimal(digit: u8) -> u8 {
    b"0123456789abcdef"[usize::from(digit % 16)]
}

impl Entry for u8 {
    fn put(self, line: &mut Line) {
        text::put(line, &[hexadecimal(self / 16), hexadecimal(self % 16)]);
    }
}

// A lent slice: its name and its entries.
fn say_slice<W: io::Write, T: Entry + Copy>(to: &mut W, name: &[u8], xs: &[T]) -> Result<(), End> {
    let mut line = Line::new();
    text::put(&mut line, name);
    for x in xs {
        text::put(&mut line, b" ");
        x.put(&mut line);
        if 4000 < line.len() {
            to.write_all(line.as_slice())?;
            line.clear();
        }
    }
    text::put(&mut line, b"\n");
    Ok(to.write_all(line.as_slice())?)
}

// The writer's room, as it stands.
fn say_text<W: io::Write>(to: &mut W, text: &[u8]) -> Result<(), End> {
    to.write_all(b"text")?;
    if !text.is_empty() {
        to.write_all(b" ")?;
        to.write_all(text)?;
    }
    Ok(to.write_all(b"\n")?)
}

// An operation's answer: the line that `put` makes of it, or the refusal.
fn say<W: io::Write, T: Drop, F: FnOnce(&mut Line, T)>(
    to: &mut W,
    answer: Result<T, Refusal>,
    put: F,
) -> Result<(), End>
    requires { F.IsAlwaysCallable put }
{
    let mut line = Line::new();
    match answer {
        Ok(x) => put(&mut line, x),
        Err(r) => words::put_refusal(&mut line, r),
    }
    Ok(to.write_all(line.as_slice())?)
}

fn put_done(line: &mut Line, _done: ()) {
    text::put(line, b"ok\n");
}

fn put_count(line: &mut Line, n: usize) {
    text::put(line, b"ok ");
    text::put_decimal(line, n as u64);
    text::put(line, b"\n");
}

fn put_answer(line: &mut Line, a: Answer) {
    text::put(line, b"ok ");
    text::put_integer(line, a.root);
    text::put(line, b" ");
    text::put_decimal(line, a.failures as u64);
    text::put(line, b" ");
    console::put_lowest(line, a.lowest);
    text::put(line, b"\n");
}

// The operations. Each reads the slices that it uses besides the sheet, in room of its own, and lends them.

fn check<W: io::Write>(to: &mut W, s: &[u8]) -> Result<(), End> {
    say(to, rules::check(s), |line, z| console::put_ok(line, z))
}

fn house<R: io::Read, W: io::Write>(
    from: &mut R,
    to: &mut W,
    s: &[u8],
    r: Request,
) -> Result<(), End> {
    let mut order = [0; Request::ORDER];
    let order = read_slice(from, &mut order, r.order)?;
    say(to, order::house_order(s, order), put_done)?;
    say_slice(to, b"order", order)
}

fn start<R: io::Read, W: io::Write>(
    from: &mut R,
    to: &mut W,
    s: &[u8],
    r: Request,
) -> Result<(), End> {
    let mut cells = [0; Request::CELLS];
    let cells = read_slice(from, &mut cells, r.cells)?;
    say(to, engine::start(s, cells), put_done)?;
    say_slice(to, b"cells", cells)
}

fn tick<R: io::Read, W: io::Write>(
    from: &mut R,
    to: &mut W,
    s: &[u8],
    r: Request,
) -> Result<(), End> {
    let mut row = [0; Request::ROWS];
    let mut cells = [0; Request::CELLS];
    let mut order = [0; Request::ORDER];
    let mut values = [INT_FILL; Request::OUT];
    let row = read_slice(from, &mut row, r.rows)?;
    let cells = read_slice(from, &mut cells, r.cells)?;
    let order = read_slice(from, &mut order, r.order)?;
    let values = first(&mut values, r.out)?;
    say(to, engine::tick(s, row, cells, order, values), put_answer)?;
    say_slice(to, b"cells", cells)?;
    say_slice(to, b"values", values)
}

fn run<R: io::Read, W: io::Write>(
    from: &mut R,
    to: &mut W,
    s: &[u8],
    r: Request,
) -> Result<(), End> {
    let mut rows = [0; Request::ROWS];
    let mut outputs = [INT_FILL; Request::OUT];
    let rows = read_slice(from, &mut rows, r.rows)?;
    let outputs = first(&mut outputs, r.out)?;
    say(to, engine::run(s, rows, outputs), put_count)?;
    say_slice(to, b"outputs", outputs)
}

fn write<W: io::Write>(to: &mut W, s: &[u8], r: Request) -> Result<(), End> {
    let mut room = [TEXT_FILL; Request::OUT];
    let room = first(&mut room, r.out)?;
    say(to, writer::write(s, room), put_count)?;
    say_text(to, room)
}

fn read<W: io::Write>(to: &mut W, text: &[u8], r: Request) -> Result<(), End> {
    let mut room = [BYTE_FILL; Request::OUT];
    let room = first(&mut room, r.out)?;
    say(to, reader::read(text, room), put_count)?;
    say_slice(to, b"bytes", room)
}

// The rest of a request, and what its operation answers.
fn serve<R: io::Read, W: io::Write>(from: &mut R, to: &mut W, r: Request) -> Result<(), End> {
    let mut sheet = [0; Request::SHEET];
    let s = first(&mut sheet, r.sheet)?;
    fill(from, s)?;
    match r.operation {
        Operation::Check => check(to, s),
        Operation::House => house(from, to, s, r),
        Operation::Start => start(from, to, s, r),
        Operation::Tick => tick(from, to, s, r),
        Operation::Run => run(from, to, s, r),
        Operation::Write => write(to, s, r),
        Operation::Read => read(to, s, r),
    }
}

// All requests, as far as they can be served. A proved loop has to end: this one has so many turns that no input uses them up.
fn serve_each<R: io::Read, W: io::Write>(from: &mut R, to: &mut W) -> Result<(), End> {
    for _ in 0..u64::MAX {
        let Some(r) = read_request(from)? else {
            break;
        };
        serve(from, to, r)?;
    }
    Ok(())
}

// All requests. The first bad one, and the first read or write that fails, ends them.
pub fn serve_all<R: io::Read, W: io::Write>(from: &mut R, to: &mut W) -> io::Result<()> {
    match serve_each(from, to) {
        Ok(()) => Ok(()),
        Err(End::BadRequest) => to.write_all(b"bad request\n"),
        Err(End::Failed(e)) => Err(e),
    }
}
