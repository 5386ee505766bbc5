// A book of version 1 in a buffer that the caller lends.
ghost use Rattle.std.specs.Prelude.{◌≡◌, ◌≤◌, ℕ};
ghost use Rattle.rules.specs.Book.{check, append_answer, append_buffer, new_answer, new_buffer, version1, entry_at, entry_for};
ghost use Rattle.refusals.specs.Answers.{refusal_as};
ghost use Rattle.frame.specs.Views.{started_as};
ghost use Rattle.book.specs.Views.{in_bits, found_as};
ghost use Rattle.pennyquill.specs.Boundary.{date_in, crossed, record_crossed, number_of, place_of};

use crate::{PqAnswer, PqRecord, crossing};
use book::Record;
use refusals::Refusal;

// ---- answers

// Nothing but that it was done.
pub fn started(answer: Result<(), Refusal>) -> PqAnswer
    requires { number_of (started_as answer) ≤ 4294967295 }
    ensures { result ≡ crossed (started_as answer) }
{
    match answer {
        Ok(()) => crossing::gives(0),
        Err(refusal) => crossing::refusal_told(refusal),
    }
}

pub fn refused_record(refusal: Refusal) -> PqRecord
    requires { place_of (refusal_as {A = ℕ} refusal) ≤ 4294967295 }
    ensures { result ≡ record_crossed (refusal_as refusal) }
{
    let PqAnswer { refusal, value } = crossing::refusal_told(refusal);
    PqRecord {
        refusal,
        kind: 0,
        value,
        field: 0,
    }
}

pub fn record_crossed(found: Result<Record, Refusal>) -> PqRecord
    requires { place_of (found_as found) ≤ 4294967295 }
    ensures { result ≡ record_crossed (found_as found) }
{
    match found {
        Ok(record) => PqRecord {
            refusal: 0,
            kind: codes::kind_code(record.kind) as u32,
            value: codes::date_number(record.date),
            field: record.field as u32,
        },
        Err(refusal) => refused_record(refusal),
    }
}

// ---- the operations

#[unsafe(no_mangle)]
pub extern "C" fn pq_book_new(book: &mut [u8]) -> PqAnswer
    ensures value { result ≡ crossed (new_answer book.old) }
    ensures book_after { book.new ≡ new_buffer version1.frame.version book.old }
{
    started(book::new(book))
}

#[unsafe(no_mangle)]
pub extern "C" fn pq_book_check(book: &[u8]) -> PqAnswer
    ensures { result ≡ crossed (check version1 book.now) }
{
    crossing::counted(book::check(book))
}

#[unsafe(no_mangle)]
pub extern "C" fn pq_book_append(book: &mut [u8], kind: u32, date: u32) -> PqAnswer
    ensures value { result ≡ crossed (append_answer version1 (entry_for kind (date_in date)) book.old) }
    ensures book_after { book.new ≡ append_buffer version1 (entry_for kind (date_in date)) book.old }
{
    let Some(kind) = codes::kind_of_code(kind) else {
        return crossing::not_of_kind();
    };
    crossing::counted(book::append(book, kind, crossing::date_in(date)))
}

#[unsafe(no_mangle)]
pub extern "C" fn pq_book_record(book: &[u8], place: usize) -> PqRecord
    ensures { result ≡ record_crossed (in_bits (entry_at version1 book.now place)) }
{
    record_crossed(book::record_at(book, place))
}
