// What is told of the lines of a script of books. These functions write, which no contract can say.
use crate::operations::Told;
use book::Record;
use refusals::Refusal;
use script::telling;
use std::fmt::Display;
use std::io;
use std::io::Write;

// `LINE = ANSWER [BUFFER]`, with the field number of a record or without.
pub(crate) fn tell<W: Write>(
    out: &mut W,
    row: &[u8],
    told: Result<Told, Refusal>,
    with_field: bool,
    buffer: &[u8],
) -> io::Result<()> {
    answer(out, row, told, with_field)?;
    telling::buffer(out, buffer)
}

// `LINE = ANSWER {`, before all that an operation was lent, and `} [BUFFER]` after it.
pub(crate) fn before_lent<W: Write>(
    out: &mut W,
    row: &[u8],
    told: Result<Told, Refusal>,
) -> io::Result<()> {
    answer(out, row, told, true)?;
    out.write_all(b" {")
}

pub(crate) fn after_lent<W: Write>(out: &mut W, buffer: &[u8]) -> io::Result<()> {
    out.write_all(b"}")?;
    telling::buffer(out, buffer)
}

// All numbers that an operation was lent.
pub(crate) fn numbers<W: Write, T: Display + Copy>(out: &mut W, numbers: &[T]) -> io::Result<()> {
    for (i, n) in numbers.iter().enumerate() {
        if 0 < i {
            out.write_all(b" ")?;
        }
        let n = *n;
        write!(out, "{n}")?;
    }
    Ok(())
}

fn answer<W: Write>(
    out: &mut W,
    row: &[u8],
    told: Result<Told, Refusal>,
    with_field: bool,
) -> io::Result<()> {
    telling::asked(out, row)?;
    match told {
        Ok(Told::Done) => out.write_all(b"done"),
        Ok(Told::Number(n)) => write!(out, "{n}"),
        Ok(Told::Record(Record { kind, field, date })) => {
            if with_field {
                telling::field_dated(out, kind, field, date)
            } else {
                telling::dated(out, kind, date)
            }
        }
        Err(refusal) => telling::refused(out, refusal),
    }
}
