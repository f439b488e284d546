// sheetop, for support and for testers: see the crate requests.
#![tactic(auto)]

use std::io;

fn main(rt: HostRuntime) -> io::Result<()> {
    requests::serve_all(&mut rt.stdin(), &mut rt.stdout())
}
