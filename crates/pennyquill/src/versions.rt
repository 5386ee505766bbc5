// Books of version 2, books of either version, and the moves between the two.
ghost use Rattle.std.specs.Prelude.{◌≡◌, length};
ghost use Rattle.rules.specs.Book.{check, entry_at, append_answer, append_buffer, new_answer, new_buffer};
ghost use Rattle.requests.specs.Second.{version2, field_entry_for};
ghost use Rattle.requests.specs.Both.{both};
ghost use Rattle.requests.specs.Moves.{move_answer, move_buffer, upward, downward};
ghost use Rattle.book_versions.specs.Walk.{walked, walked_over};
ghost use Rattle.pennyquill.specs.Boundary.{date_in, crossed, record_crossed};

use crate::{PqAnswer, PqRecord, books, crossing};
use book_versions::{any, moves, second};

// ---- version 2

#[unsafe(no_mangle)]
pub extern "C" fn pq_book2_new(book: &mut [u8]) -> PqAnswer
    ensures value { result ≡ crossed (new_answer book.old) }
    ensures book_after { book.new ≡ new_buffer version2.frame.version book.old }
{
    books::started(second::new(book))
}

#[unsafe(no_mangle)]
pub extern "C" fn pq_book2_check(book: &[u8]) -> PqAnswer
    ensures { result ≡ crossed (check version2 book.now) }
{
    crossing::counted(second::check(book))
}

// A field number that two bytes do not hold is refused as a kind that is none is.
#[unsafe(no_mangle)]
pub extern "C" fn pq_book2_append(book: &mut [u8], kind: u32, field: u32, date: u32) -> PqAnswer
    ensures value { result ≡ crossed (append_answer version2 (field_entry_for kind field (date_in date)) book.old) }
    ensures book_after { book.new ≡ append_buffer version2 (field_entry_for kind field (date_in date)) book.old }
{
    let Some(kind) = codes::kind_of_code(kind) else {
        return crossing::not_of_kind();
    };
    let Ok(field) = u16::try_from(field) else {
        return crossing::not_of_kind();
    };
    let date = crossing::date_in(date);
    crossing::counted(second::append(book, kind, field, date))
}

#[unsafe(no_mangle)]
pub extern "C" fn pq_book2_record(book: &[u8], place: usize) -> PqRecord
    ensures { result ≡ record_crossed (entry_at version2 book.now place) }
{
    books::record_crossed(second::record_at(book, place))
}

// ---- either version

#[unsafe(no_mangle)]
pub extern "C" fn pq_any_book_check(book: &[u8]) -> PqAnswer
    ensures { result ≡ crossed (check (both book.now) book.now) }
{
    crossing::counted(any::check(book))
}

#[unsafe(no_mangle)]
pub extern "C" fn pq_any_book_record(book: &[u8], place: usize) -> PqRecord
    ensures { result ≡ record_crossed (entry_at (both book.now) book.now place) }
{
    books::record_crossed(any::record_at(book, place))
}

// The records from a place on, over one check of the book.
#[unsafe(no_mangle)]
pub extern "C" fn pq_any_book_records(book: &[u8], place: usize, out: &mut [u32]) -> PqAnswer
    ensures value { result ≡ crossed (walked book.now place (length out.old)) }
    ensures out_after { out.new ≡ walked_over (walked book.now place (length out.old)) book.now place out.old }
{
    crossing::counted(any::records(book, place, out))
}

// ---- the moves

#[unsafe(no_mangle)]
pub extern "C" fn pq_book_to_2(from: &[u8], to: &mut [u8]) -> PqAnswer
    ensures value { result ≡ crossed (move_answer upward from.now to.old) }
    ensures to_after { to.new ≡ move_buffer upward from.now to.old }
{
    crossing::counted(moves::to_2(from, to))
}

#[unsafe(no_mangle)]
pub extern "C" fn pq_book_to_1(from: &[u8], to: &mut [u8]) -> PqAnswer
    ensures value { result ≡ crossed (move_answer downward from.now to.old) }
    ensures to_after { to.new ≡ move_buffer downward from.now to.old }
{
    crossing::counted(moves::to_1(from, to))
}
