// Version 2: records of seven bytes, with a field number and with a date's mark. Each operation is the one of `book::sized` at version 2's
// format.
ghost use Rattle.std.specs.Prelude.{◌≡◌, true};
ghost use Rattle.rules.specs.Refusals.{given};
ghost use Rattle.rules.specs.Book.{check, entry_at, append_answer, append_buffer, new_answer, new_buffer, kind_code};
ghost use Rattle.requests.specs.Second.{version2, field_entry_bytes, field_entry_for};
ghost use Rattle.kinds.specs.Views.{kind_of, bits_of};
ghost use Rattle.frame.specs.Views.{started_as};
ghost use Rattle.book.specs.Views.{checked_as, found_as, appended_as};

use book::sized::Format;
use book::{Record, slots};
use frame::Frame;
use kinds::{Kind, Packed};
use refusals::Refusal;

// The bytes of a record, the most records and the version byte of version 2.
pub const SIZE: usize = 7;

pub const MOST: usize = 4096;

pub const VERSION: u8 = 2;

// The records of version 2 may have a field number, and their dates a mark.
pub const PLAIN: bool = false;

// Version 2.
pub const FORMAT: Format = Format {
    frame: Frame {
        size: SIZE,
        most: MOST,
        version: VERSION,
    },
    plain: PLAIN,
};

// Kept (point 2): (a) the documents name each version's calls; both versions' are calls of `Format`'s one function for each.
// Whether the buffer starts with a book of version 2, and how many records it has.
pub fn check(b: &[u8]) -> Result<usize, Refusal>
    ensures { checked_as result ≡ check version2 b.now }
{
    FORMAT.check_of(b)
}

// The record at a place of a book that was checked. It looks at the length and at that record alone, so that a walk over a whole
// book is linear.
pub fn entry(b: &[u8], place: usize) -> Result<Record, Refusal>
    requires { given (check version2 b.now) ≡ true }
    ensures { found_as result ≡ entry_at version2 b.now place }
{
    FORMAT.entry_of(b, place)
}

// The record at a place of whatever the buffer holds.
pub fn record_at(b: &[u8], place: usize) -> Result<Record, Refusal>
    ensures { found_as result ≡ entry_at version2 b.now place }
{
    FORMAT.record_of(b, place)
}

// Writes an empty book of version 2. The bytes after it stay.
pub fn new(b: &mut [u8]) -> Result<(), Refusal>
    ensures result_value { started_as result ≡ new_answer b.old }
    ensures b_after { b.new ≡ new_buffer version2.frame.version b.old }
{
    frame::new(b, FORMAT.frame.version)
}

// The seven bytes of version 2's record of a date: those of version 1's, and the field number after the kind.
fn bytes_of(kind: Kind, field: u16, date: Packed) -> [u8; SIZE]
    ensures { result ≡ field_entry_bytes (kind_of kind) field (bits_of date) }
{
    let [code, y1, y0, w1, w0] = slots::bytes_of(kind, date);
    let [f1, f0] = field.to_be_bytes();
    [code, f1, f0, y1, y0, w1, w0]
}

// Writes the record of a date after the last, with its field number, 0 for none, and gives its place. A date not of the kind is refused
// before the book is looked at; a guessed one is taken as any other.
pub fn append(b: &mut [u8], kind: Kind, field: u16, date: Packed) -> Result<usize, Refusal>
    ensures result_value { appended_as result ≡ append_answer version2 (field_entry_for (kind_code (kind_of kind)) field (bits_of date)) b.old }
    ensures b_after { b.new ≡ append_buffer version2 (field_entry_for (kind_code (kind_of kind)) field (bits_of date)) b.old }
{
    if !kinds::is_of_kind(kind, date) {
        return Err(Refusal::NotOfKind);
    }
    FORMAT.append_record(b, &bytes_of(kind, field, date))
}
