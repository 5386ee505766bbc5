// Reports the gaps of the book that stands on standard input: reads as many bytes as the longest book has, has them reported, writes that.
#![tactic(auto)]

use std::io;

// Kept (point 2): (a) the gate runs a program on one stored input, so this `main` stands in four crates, over four inputs.
fn main(rt: HostRuntime) -> io::Result<()> {
    let mut book = intake::room::<28677>();
    let mut report = intake::room::<714>();
    intake::answer(
        &mut rt.reader(),
        &mut io::writer(&rt),
        &mut book,
        &mut report,
        gap_report::print,
    )
}
