// The gap report of a book and its figures, into bytes or numbers that are lent, and told with all of these.
use crate::{operations, telling};
use std::io;
use std::io::Write;

// The most bytes that a line lends for a report.
const MOST_BYTES: usize = 400;

// The most numbers that a line lends for its figures.
const MOST_NUMBERS: usize = 64;

// What is asked for, and how much is lent for it: bytes for the report, numbers for its figures. A line that lends more than there is is told
// as unread.
#[derive(Clone, Copy)]
pub(crate) enum GapLine {
    Report(usize),
    Figures(usize),
}

pub(crate) fn tell<W: Write>(
    out: &mut W,
    row: &[u8],
    book: &[u8],
    asked: GapLine,
) -> io::Result<()> {
    match asked {
        GapLine::Report(room) => report(out, row, book, room),
        GapLine::Figures(numbers) => figures(out, row, book, numbers),
    }
}

// The report, into bytes that are each `~` before.
fn report<W: Write>(out: &mut W, row: &[u8], book: &[u8], room: usize) -> io::Result<()> {
    if MOST_BYTES < room {
        return script::telling::unread(out, row);
    }
    let mut lent = [b'~'; MOST_BYTES];
    let lent = &mut lent[..room];
    let told = operations::counted(gap_report::report(book, lent));
    telling::before_lent(out, row, told)?;
    text(out, lent)?;
    telling::after_lent(out, book)
}

// A text, told in one line.
fn text<W: Write>(out: &mut W, lent: &[u8]) -> io::Result<()> {
    for byte in lent {
        let byte = *byte;
        out.write_all(&[if byte == b'\n' { b'/' } else { byte }])?;
    }
    Ok(())
}

// Its figures, into numbers that are each 7 before.
fn figures<W: Write>(out: &mut W, row: &[u8], book: &[u8], numbers: usize) -> io::Result<()> {
    if MOST_NUMBERS < numbers {
        return script::telling::unread(out, row);
    }
    let mut lent = [7i64; MOST_NUMBERS];
    let lent = &mut lent[..numbers];
    let told = operations::counted(gap_report::figures(book, lent));
    telling::before_lent(out, row, told)?;
    telling::numbers(out, lent)?;
    telling::after_lent(out, book)
}
