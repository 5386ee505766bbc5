// What is told of the listings of a script. These functions write, which no contract can say.
use refusals::Refusal;
use script::telling;
use std::io;
use std::io::Write;

// `ROW = ANSWER`.
pub(crate) fn room<W: Write>(
    out: &mut W,
    row: &[u8],
    lent: Result<usize, Refusal>,
) -> io::Result<()> {
    answer(out, row, lent)?;
    out.write_all(b"\n")
}

// `ROW = ANSWER [BUFFER]`.
pub(crate) fn listing<W: Write>(
    out: &mut W,
    row: &[u8],
    lent: Result<usize, Refusal>,
    buffer: &[u8],
) -> io::Result<()> {
    answer(out, row, lent)?;
    telling::buffer(out, buffer)
}

fn answer<W: Write>(out: &mut W, row: &[u8], lent: Result<usize, Refusal>) -> io::Result<()> {
    telling::asked(out, row)?;
    match lent {
        Ok(n) => write!(out, "{n}"),
        Err(refusal) => telling::refused(out, refusal),
    }
}
