// sheetread: the bytes of the sheet whose listing is on standard input. No listing is as long as an input that fills the buffer.
#![tactic(auto)]

use std::io;

fn main(rt: HostRuntime) -> io::Result<()> {
    intake::filter(
        &mut rt.stdin(),
        &mut io::writer(&rt),
        &mut [0; 65536],
        &mut exchange::room(),
        exchange::sheetread,
    )
}
