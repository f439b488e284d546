// sheetop on requests of which the last is one byte short. A program of its own: a crate has one standard input.
#![tactic(auto)]

use std::io;

fn main(rt: HostRuntime) -> io::Result<()> {
    requests::serve_all(&mut rt.stdin(), &mut rt.stdout())
}
