// `datelist` over some hundred lines: every kind, way and refusal, and odd shapes.
#![tactic(auto)]

use std::io;

// The room for the input has one byte more than it may have, so that a longer one is seen.
// Kept (point 2): (a) the gate runs a program on one stored input, so this `main` stands in four crates, over four inputs.
fn main(rt: HostRuntime) -> io::Result<()> {
    let mut input = intake::room::<65536>();
    let mut listed = intake::room::<786420>();
    intake::answer(
        &mut rt.reader(),
        &mut io::writer(&rt),
        &mut input,
        &mut listed,
        listing::print,
    )
}
