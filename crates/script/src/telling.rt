// What the programs that run a script write, and replay with them: each function says what it adds to what the writer holds.
ghost use Rattle.std.specs.Prelude.{cond, OnOk, [], flat_map};
ghost use Rattle.std.specs.Io.KnownBytes.{Appends};
ghost use Rattle.script.specs.Telling.{line_text, remark_text, unread_text, asked_text, two_digits, shown_text, buffer_text, letter_text, dated_text, field_dated_text, declared_text, refused_text, looked_text, told_text, table_text};

use crate::table_answers::Told;
use crate::weighing;
use field_table::{Entry, Looked};
use kinds::{Kind, Packed};
use refusals::Refusal;
use std::io;
use std::io::Write;

// The longest buffer that is shown byte for byte.
const LONGEST_SHOWN: usize = 40;

// ---- a row

// A row without its line end.
pub fn line<W: Write>(out: &mut W, row: &[u8]) -> io::Result<()>
    ensures { OnOk result (Appends (W.contents out.old) (W.contents out.new) (line_text row.now)) }
{
    let n = spans::find(row, 0, row.len(), b'\n');
    out.write_all(&row[..n])
}

pub fn remark<W: Write>(out: &mut W, row: &[u8]) -> io::Result<()>
    ensures { OnOk result (Appends (W.contents out.old) (W.contents out.new) (remark_text row.now)) }
{
    line(out, row)?;
    out.write_all(b"\n")
}

// No expected output has such a row.
pub fn unread<W: Write>(out: &mut W, row: &[u8]) -> io::Result<()>
    ensures { OnOk result (Appends (W.contents out.old) (W.contents out.new) (unread_text row.now)) }
{
    line(out, row)?;
    out.write_all(b" = unread\n")
}

pub fn unread_unless<W: Write>(out: &mut W, row: &[u8], done: bool) -> io::Result<()>
    ensures { OnOk result (Appends (W.contents out.old) (W.contents out.new) (cond done [] (unread_text row.now))) }
{
    if done { Ok(()) } else { unread(out, row) }
}

// `ROW = `, before what is told of it.
pub fn asked<W: Write>(out: &mut W, row: &[u8]) -> io::Result<()>
    ensures { OnOk result (Appends (W.contents out.old) (W.contents out.new) (asked_text row.now)) }
{
    line(out, row)?;
    out.write_all(b" = ")
}

// ` [BUFFER]`, after it.
pub fn buffer<W: Write>(out: &mut W, buffer: &[u8]) -> io::Result<()>
    ensures { OnOk result (Appends (W.contents out.old) (W.contents out.new) (buffer_text buffer.now)) }
{
    out.write_all(b" [")?;
    show(out, buffer)?;
    out.write_all(b"]\n")
}

// ---- an answer

// `ROW = ANSWER [BUFFER]`, of an operation on a table.
pub fn table<W: Write>(
    out: &mut W,
    row: &[u8],
    told: Result<Told, Refusal>,
    bytes: &[u8],
) -> io::Result<()>
    ensures { OnOk result (Appends (W.contents out.old) (W.contents out.new) (table_text row.now told bytes.now)) }
{
    asked(out, row)?;
    answered(out, told)?;
    buffer(out, bytes)
}

fn answered<W: Write>(out: &mut W, told: Result<Told, Refusal>) -> io::Result<()>
    ensures { OnOk result (Appends (W.contents out.old) (W.contents out.new) (told_text told)) }
{
    match told {
        Ok(Told::Done) => out.write_all(b"done"),
        Ok(Told::Number(n)) => write!(out, "{n}"),
        Ok(Told::Entry(entry)) => declared(out, entry),
        Ok(Told::Dated(found)) => looked(out, found),
        Err(refusal) => refused(out, refusal),
    }
}

// `declared K YEAR WORD`, or `guessed K YEAR WORD`.
fn looked<W: Write>(out: &mut W, found: Looked) -> io::Result<()>
    ensures { OnOk result (Appends (W.contents out.old) (W.contents out.new) (looked_text found)) }
{
    match found {
        Looked::Declared { kind, date } => {
            out.write_all(b"declared ")?;
            dated(out, kind, date)
        }
        Looked::Guessed { kind, date } => {
            out.write_all(b"guessed ")?;
            dated(out, kind, date)
        }
    }
}

// `refused N`, and the place of the record that is refused.
pub fn refused<W: Write>(out: &mut W, refusal: Refusal) -> io::Result<()>
    ensures { OnOk result (Appends (W.contents out.old) (W.contents out.new) (refused_text refusal)) }
{
    let n = u8::from(refusal);
    write!(out, "refused {n}")?;
    match refusal {
        Refusal::BadRecord(place) | Refusal::FieldOrMark(place) => write!(out, " {place}"),
        _ => Ok(()),
    }
}

// `FIELD K`.
fn declared<W: Write>(out: &mut W, entry: Entry) -> io::Result<()>
    ensures { OnOk result (Appends (W.contents out.old) (W.contents out.new) (declared_text entry)) }
{
    let Entry { field, kind } = entry;
    write!(out, "{field} ")?;
    letter(out, kind)
}

fn letter<W: Write>(out: &mut W, kind: Kind) -> io::Result<()>
    ensures { OnOk result (Appends (W.contents out.old) (W.contents out.new) (letter_text kind)) }
{
    out.write_all(&[codes::letter(kind)])
}

// `K YEAR WORD`.
pub fn dated<W: Write>(out: &mut W, kind: Kind, date: Packed) -> io::Result<()>
    ensures { OnOk result (Appends (W.contents out.old) (W.contents out.new) (dated_text kind date)) }
{
    let Packed { year, word } = date;
    letter(out, kind)?;
    write!(out, " {year} {word}")
}

// `K FIELD YEAR WORD`.
pub fn field_dated<W: Write>(out: &mut W, kind: Kind, field: u16, date: Packed) -> io::Result<()>
    ensures { OnOk result (Appends (W.contents out.old) (W.contents out.new) (field_dated_text kind field date)) }
{
    let Packed { year, word } = date;
    letter(out, kind)?;
    write!(out, " {field} {year} {word}")
}

// ---- a buffer

// Byte for byte, or its length and the sum that stands for it.
fn show<W: Write>(out: &mut W, buffer: &[u8]) -> io::Result<()>
    ensures { OnOk result (Appends (W.contents out.old) (W.contents out.new) (shown_text buffer.now)) }
{
    if buffer.len() <= LONGEST_SHOWN {
        return hexadecimal(out, buffer);
    }
    let length = buffer.len();
    let sum = weighing::weighed(buffer);
    write!(out, "{length} bytes, sum {sum}")
}

fn hexadecimal<W: Write>(out: &mut W, buffer: &[u8]) -> io::Result<()>
    ensures { OnOk result (Appends (W.contents out.old) (W.contents out.new) (flat_map two_digits buffer.now)) }
{
    for byte in buffer {
        let byte = *byte;
        write!(out, "{byte:02x}")?;
    }
    Ok(())
}
