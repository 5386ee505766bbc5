// One record of a book: a kind's code in its first byte; in its last four a year in two's complement and a packed word, the larger byte
// first; a field number in the two bytes between, where its size has them. In a plain book it has no field number and no mark.
ghost use Rattle.std.specs.Prelude.{◌≡◌, ◌+◌, ◌*◌, ◌≤◌, length, take, drop};
ghost use Rattle.std.proofs.lemmas.List.Edits.{sets};
ghost use Rattle.kinds.specs.Views.{bits_of};
ghost use Rattle.book.specs.Views.{least_size, kept_by, field_sized, entry_sized, sound_sized, bytes_of, slot_as};

use crate::sized::Format;
use crate::{Record, SIZE};
use kinds::{Kind, NO_MARK, Packed};

// The bytes of a date: two of its year, two of its word.
const DATE_SIZE: usize = 4;

// The bytes of the smallest record that has a field number: its kind's, the field's two and its date's.
const FIELD_RECORD_SIZE: usize = 1 + 2 + DATE_SIZE;

// Whether a book may have a record with that field number and that date's mark: a plain one has neither.
fn is_kept(field: u16, date: Packed, plain: bool) -> bool
    ensures { result ≡ kept_by plain field (bits_of date) }
{
    !plain || field == 0 && kinds::mark_of(date) == NO_MARK
}

// The field number of the record whose bytes start at `at`: 0 where its size has no room for one.
fn field_at(b: &[u8], at: usize, size: usize) -> u16
    requires { at + size ≤ length b.now }
    ensures { result ≡ field_sized size (take size (drop at b.now)) }
{
    if size < FIELD_RECORD_SIZE {
        return 0;
    }
    u16::from_be_bytes([b[at + 1], b[at + 2]])
}

// The record whose bytes start at `at`.
pub fn slot_at(b: &[u8], at: usize, format: Format) -> Option<Record>
    requires { at + format.frame.size ≤ length b.now }
    ensures { slot_as result ≡ entry_sized format.frame.size format.plain (take format.frame.size (drop at b.now)) }
{
    let kind = codes::kind_of_code(b[at] as u32)?;
    let field = field_at(b, at, format.frame.size);
    let d = at + format.frame.size - DATE_SIZE;
    let year = codes::year_of_twos(u16::from_be_bytes([b[d], b[d + 1]]));
    let word = u16::from_be_bytes([b[d + 2], b[d + 3]]);
    let date = Packed { year, word };
    if is_kept(field, date, format.plain) && kinds::is_of_kind(kind, date) {
        return Some(Record { kind, field, date });
    }
    None
}

pub fn sound_at(b: &[u8], at: usize, format: Format) -> bool
    requires { at + format.frame.size ≤ length b.now }
    ensures { result ≡ sound_sized format.frame.size format.plain (take format.frame.size (drop at b.now)) }
{
    slot_at(b, at, format).is_some()
}

// The five bytes of version 1's record of a date, its word as it is.
pub fn bytes_of(kind: Kind, date: Packed) -> [u8; SIZE]
    ensures { result ≡ bytes_of kind date }
{
    let [y1, y0] = codes::twos_complement(date.year).to_be_bytes();
    let [w1, w0] = date.word.to_be_bytes();
    [codes::kind_code(kind), y1, y0, w1, w0]
}

// A record's bytes from `at` on.
pub fn put(b: &mut [u8], at: usize, piece: &[u8])
    requires { at + length piece.now ≤ length b.old }
    ensures { b.new ≡ sets b.old at piece.now }
{
    b[at..at + piece.len()].copy_from_slice(piece);
}
