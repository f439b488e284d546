// sheetrun: a sheet and its rows on standard input, run and printed as document 01 says.
#![tactic(auto)]

use console::Input;
use std::io;

fn main(rt: HostRuntime) -> io::Result<()> {
    intake::filter(
        &mut rt.stdin(),
        &mut io::writer(&rt),
        &mut Input::bytes(),
        &mut Input::text(),
        console::sheetrun,
    )
}
