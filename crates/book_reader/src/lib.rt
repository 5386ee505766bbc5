// A reader that holds a book of version 1 and a place in it; `any` has one for both versions. Each function takes the struct apart, or
// puts it together, and leaves the work to one over a slice and a place. Callers who hold a slice use `next_at`.
#![tactic(auto)]

ghost use Rattle.std.specs.Prelude.{◌≡◌};
ghost use Rattle.rules.specs.Book.{entry_at, version1};
ghost use Rattle.book.specs.Views.{found_as, in_bits};
ghost use Rattle.book_reader.specs.Places.{next_place};

use book::Record;
use refusals::Refusal;

pub mod any;

#[derive(Clone, Copy)]
pub struct BookReader<'a> {
    pub book: &'a [u8],
    pub place: usize,
}

impl<'a> BookReader<'a> {
    // A reader of whatever the slice holds; `next` says whether it is a book.
    pub fn start(book: &'a [u8], place: usize) -> BookReader<'a>
        ensures { (result.book ≡ book.entry) × (result.place ≡ place) }
    {
        BookReader { book, place }
    }

    // The record at the reader's place, or why there is none.
    pub fn next(self) -> Result<Record, Refusal>
        ensures { found_as result ≡ in_bits (entry_at version1 self.entry.book.now self.entry.place) }
    {
        book::record_at(self.book, self.place)
    }

    // The reader of the same book, one place on.
    pub fn after(self) -> BookReader<'a>
        ensures { (result.book ≡ self.entry.book) × (result.place ≡ next_place self.entry.place) }
    {
        BookReader {
            place: place_after(self.place),
            ..self
        }
    }
}

// The place after a place. Past the last record that any book can have it stays, so that it never runs out of numbers.
pub fn place_after(place: usize) -> usize
    ensures { result ≡ next_place place }
{
    if place < book::FORMAT.frame.most {
        place + 1
    } else {
        place
    }
}

// What a reader at the place gives next, for a caller who holds a slice and a number.
pub fn next_at(book: &[u8], place: usize) -> Result<Record, Refusal>
    ensures { found_as result ≡ in_bits (entry_at version1 book.now place) }
{
    BookReader::start(book, place).next()
}
