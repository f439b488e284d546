// sheetlist: the listing of the sheet on standard input, and one line feed. A sheet states its length in two bytes, so that an input that fills
// the buffer is refused as all longer ones are.
#![tactic(auto)]

use std::io;

fn main(rt: HostRuntime) -> io::Result<()> {
    intake::filter(
        &mut rt.stdin(),
        &mut io::writer(&rt),
        &mut [0; 65536],
        &mut exchange::room(),
        exchange::sheetlist,
    )
}
