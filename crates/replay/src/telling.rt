// What is told of the rows: each question as it stands, and the answer after it. These functions write, which no contract can say.
ghost use Rattle.std.specs.Prelude.{◌≤◌, length};
ghost use Rattle.formatter.specs.Views.{length_of};

use crate::answers::Told;
use crate::leaves::LeafTold;
use crate::{dates, marks};
use eu5_date::Eu5Date;
use kinds::{ExpandedRawDate, Kind, Packed};
use refusals::Refusal;
use script::telling;
use std::io;
use std::io::Write;

// ---- the answers of the kinds

pub(crate) fn tell<W: Write>(
    out: &mut W,
    row: &[u8],
    kind: Kind,
    told: Result<Told, Refusal>,
) -> io::Result<()> {
    telling::line(out, row)?;
    match told {
        Ok(Told::Date(date)) => dated(out, kind, date)?,
        Ok(Told::Number(n)) => write!(out, " {n}")?,
        Ok(Told::Unasked) => out.write_all(b" = unread")?,
        Err(refusal) => refused(out, refusal)?,
    }
    out.write_all(b"\n")
}

// Its fields, and that it was guessed, where it was.
fn dated<W: Write>(out: &mut W, kind: Kind, date: Packed) -> io::Result<()> {
    let ExpandedRawDate {
        year,
        month,
        day,
        hour,
    } = dates::shown(kind, date);
    write!(out, " {year} {month} {day} {hour}")?;
    if marks::is_guessed(kind, date) {
        return out.write_all(b" guessed");
    }
    Ok(())
}

fn refused<W: Write>(out: &mut W, refusal: Refusal) -> io::Result<()> {
    out.write_all(b" ")?;
    telling::refused(out, refusal)
}

// ---- the texts of a date

// The dotted text and the ISO text; of E the ISO date alone too.
pub(crate) fn spellings<W: Write>(
    out: &mut W,
    row: &[u8],
    kind: Kind,
    date: Packed,
) -> io::Result<()> {
    let mut buffer = [0u8; 16];
    telling::line(out, row)?;
    let dotted = dates::game_fmt(kind, date, &mut buffer);
    text(out, &buffer, dotted)?;
    let iso = dates::iso_8601(kind, date, &mut buffer);
    text(out, &buffer, iso)?;
    if kind == Kind::Eu5 {
        let alone = Eu5Date { raw: date }.date_fmt(&mut buffer);
        text(out, &buffer, alone)?;
    }
    out.write_all(b"\n")
}

pub(crate) fn exchange<W: Write>(
    out: &mut W,
    row: &[u8],
    kind: Kind,
    date: Packed,
) -> io::Result<()> {
    let mut buffer = [0u8; 16];
    telling::line(out, row)?;
    let exchanged = dates::exchange(kind, date, &mut buffer);
    text(out, &buffer, exchanged)?;
    out.write_all(b"\n")
}

// A space, and the text at the front of a buffer, or why there is none.
fn text<W: Write>(out: &mut W, buffer: &[u8], spelled: Result<usize, Refusal>) -> io::Result<()>
    requires { length_of spelled ≤ length buffer.now }
{
    match spelled {
        Ok(n) => {
            out.write_all(b" ")?;
            out.write_all(&buffer[..n])
        }
        Err(refusal) => refused(out, refusal),
    }
}

// ---- the answers of the leaves

pub(crate) fn tell_leaf<W: Write>(out: &mut W, row: &[u8], told: LeafTold) -> io::Result<()> {
    telling::line(out, row)?;
    match told {
        LeafTold::Leading { value, rest } => write!(out, " {value} {rest}")?,
        LeafTold::NoLeading => out.write_all(b" refused")?,
        LeafTold::Digits(value) => write!(out, " {value}")?,
        LeafTold::NoDigits => out.write_all(b" none")?,
        LeafTold::MonthDay { month, day } => write!(out, " {month} {day}")?,
        LeafTold::Number(n) => write!(out, " {n}")?,
        LeafTold::NoMonth => refused(out, Refusal::NotOfKind)?,
        LeafTold::Unasked => out.write_all(b" = unread")?,
    }
    out.write_all(b"\n")
}
