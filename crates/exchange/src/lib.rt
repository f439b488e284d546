// What sheetlist and sheetread print: from the bytes of standard input to the bytes of standard output.
#![tactic(auto)]

ghost use Rattle.std.specs.Prelude.{◌≡◌, length};
ghost use Rattle.text.specs.Text.{Prints};
ghost use Rattle.exchange.specs.Exchange as printed;

use listing::TEXT;

// Room for all that is printed: a listing and a line feed.

const ROOM: usize = TEXT + 1;

pub fn room() -> [u8; ROOM]
    ensures { length result ≡ printed.max_printed }
{
    [0; ROOM]
}

// The text of an input: a line feed at its end is none of it.
#[tactic(auto, unfolding(crate::specs::Exchange::text_in))]
fn text_in(input: &[u8]) -> &[u8]
    ensures { result.now ≡ printed.text_in input.now }
{
    match input {
        [text @ .., b'\n'] => text,
        _ => input,
    }
}

// All that sheetlist and sheetread print of an input, at the start of `out`; what is returned is its length. Each is by its operation, straight
// into `out`.

pub fn sheetlist(input: &[u8], out: &mut [u8]) -> usize
    ensures { Prints printed.max_printed (λ t. t ≡ printed.sheetlist input.now) out.old out.new result }
{
    match writer::write(input, out) {
        Ok(n) => text::lent::put(out, n, b"\n"),
        Err(r) => words::lent::put_refusal(out, 0, r),
    }
}

pub fn sheetread(input: &[u8], out: &mut [u8]) -> usize
    ensures { Prints printed.max_printed (λ t. t ≡ printed.sheetread input.now) out.old out.new result }
{
    match reader::read(text_in(input), out) {
        Ok(n) => n,
        Err(r) => words::lent::put_refusal(out, 0, r),
    }
}
