// A book of dates in a buffer that the caller lends: four bytes of length, a version byte, records of five bytes. `rules` says what
// each answer is, over the format; these are its operations at version 1, each the one of `sized` at version 1's format.
#![tactic(auto)]

ghost use Rattle.std.specs.Prelude.{◌≡◌, true};
ghost use Rattle.rules.specs.Refusals.{given};
ghost use Rattle.rules.specs.Book.{check, append_answer, append_buffer, new_answer, new_buffer, kind_code, version1, entry_at, entry_for};
ghost use Rattle.kinds.specs.Views.{kind_of, bits_of};
ghost use Rattle.frame.specs.Views.{started_as};
ghost use Rattle.book.specs.Views.{in_bits, checked_as, found_as, appended_as};

use frame::Frame;
use kinds::{Kind, Packed};
use refusals::Refusal;
use sized::Format;

pub mod sized;
pub mod slots;

// The bytes of a record, the most records and the version byte of version 1.
pub const SIZE: usize = 5;

pub const MOST: usize = 4096;

pub const VERSION: u8 = 1;

// The records of version 1 have no field number, and their dates no mark.
pub const PLAIN: bool = true;

// Version 1.
pub const FORMAT: Format = Format {
    frame: Frame {
        size: SIZE,
        most: MOST,
        version: VERSION,
    },
    plain: PLAIN,
};

// The kind, the field number (0 for none, and in version 1) and the date of a record.
#[derive(Clone, Copy)]
pub struct Record {
    pub kind: Kind,
    pub field: u16,
    pub date: Packed,
}

// Whether the buffer starts with a book, and how many records it has; of a bad record, the first one's place.
pub fn check(b: &[u8]) -> Result<usize, Refusal>
    ensures { checked_as result ≡ check version1 b.now }
{
    FORMAT.check_of(b)
}

// The record at a place of a book that was checked. It looks at the length and at that record alone, so that a walk over a whole
// book is linear.
pub fn entry(b: &[u8], place: usize) -> Result<Record, Refusal>
    requires { given (check version1 b.now) ≡ true }
    ensures { found_as result ≡ in_bits (entry_at version1 b.now place) }
{
    FORMAT.entry_of(b, place)
}

// The record at a place of whatever the buffer holds.
pub fn record_at(b: &[u8], place: usize) -> Result<Record, Refusal>
    ensures { found_as result ≡ in_bits (entry_at version1 b.now place) }
{
    FORMAT.record_of(b, place)
}

// Writes an empty book. The bytes after it stay.
pub fn new(b: &mut [u8]) -> Result<(), Refusal>
    ensures result_value { started_as result ≡ new_answer b.old }
    ensures b_after { b.new ≡ new_buffer version1.frame.version b.old }
{
    frame::new(b, FORMAT.frame.version)
}

// Writes the record of a date after the last, and gives its place. A date not of the kind is refused before the book is looked at, a
// guessed one where there would be room for it.
pub fn append(b: &mut [u8], kind: Kind, date: Packed) -> Result<usize, Refusal>
    ensures result_value { appended_as result ≡ append_answer version1 (entry_for (kind_code (kind_of kind)) (bits_of date)) b.old }
    ensures b_after { b.new ≡ append_buffer version1 (entry_for (kind_code (kind_of kind)) (bits_of date)) b.old }
{
    if !kinds::is_of_kind(kind, date) {
        return Err(Refusal::NotOfKind);
    }
    FORMAT.append_record(b, &slots::bytes_of(kind, date))
}
