// Asks again what was asked of the original: each line of standard input is a question, and is printed with the port's answer after it.
// The program is given no answers. The stored output has those of the original, or of the second reading for what the original lacks,
// and the gate compares the bytes. `compare/README.md` says what a row is.
#![tactic(auto)]

use kinds::Kind;
use script::running;
use std::io;
use std::io::{Read, Write};

mod answers;
mod dates;
mod days;
mod leaves;
mod marks;
mod parts;
mod questions;
mod quoted;
mod telling;

fn main(rt: HostRuntime) -> io::Result<()> {
    let mut input = intake::room::<524288>();
    let n = intake::read_full(&mut rt.reader(), &mut input)?;
    running::run(&mut io::writer(&rt), &input[..n], |out, row| step(out, row))
}

// A row that starts with the letter of a kind asks that kind; any other asks a leaf.
fn step<W: Write>(out: &mut W, row: &[u8]) -> io::Result<()> {
    match codes::kind_of_letter(rows::byte(row, 0)) {
        Some(kind) => ask_kind(out, row, kind),
        None => telling::tell_leaf(out, row, questions::of_leaf(row)),
    }
}

fn ask_kind<W: Write>(out: &mut W, row: &[u8], kind: Kind) -> io::Result<()> {
    match rows::byte(row, 2) {
        b's' => spellings(out, row, kind),
        b'x' => exchange(out, row, kind),
        _ => telling::tell(out, row, kind, questions::of_kind(row, kind)),
    }
}

fn spellings<W: Write>(out: &mut W, row: &[u8], kind: Kind) -> io::Result<()> {
    let from = parts::date(row, rows::after_word(row, 1, b" s "));
    if rows::ends(row, from.next) {
        telling::spellings(out, row, kind, from.value)
    } else {
        script::telling::unread(out, row)
    }
}

fn exchange<W: Write>(out: &mut W, row: &[u8], kind: Kind) -> io::Result<()> {
    let from = parts::date(row, rows::after_word(row, 1, b" x "));
    if rows::ends(row, from.next) {
        telling::exchange(out, row, kind, from.value)
    } else {
        script::telling::unread(out, row)
    }
}
