// sheetruns: many inputs of sheetrun on standard input, each a 4-byte big-endian length and so many bytes. Prints what sheetrun prints
// of each, one after the other. An input of more than 65536 bytes, or one that is cut short, ends the series.
#![tactic(auto)]

ghost use Rattle.std.specs.Prelude.{◌≤◌, length, IfOk, IfSome};

use console::Input;
use std::io;

// How many bytes the next input has, which are read; none where the series ends.
fn next<R: io::Read>(from: &mut R, input: &mut [u8]) -> io::Result<Option<usize>>
    ensures { IfOk result (λ next. IfSome next (λ n. n ≤ length input.new)) }
{
    let mut head = [0; 4];
    if intake::read_full(from, &mut head)? < head.len() {
        return Ok(None);
    }
    let n = u32::from_be_bytes(head) as usize;
    if input.len() < n || intake::read_full(from, &mut input[..n])? < n {
        return Ok(None);
    }
    Ok(Some(n))
}

// A proved loop has to end: this one has so many turns that no input uses them up.
fn main(rt: HostRuntime) -> io::Result<()> {
    let mut from = rt.stdin();
    let mut to = rt.stdout();
    let mut input = [0; 65536];
    for _ in 0..u64::MAX {
        let Some(n) = next(&mut from, &mut input)? else {
            return Ok(());
        };
        let mut text = Input::text();
        let r = console::sheetrun(&input[..n], &mut text);
        io::Write::write_all(&mut to, &text[..r])?;
    }
    Ok(())
}
