// A reader of books of either version, of the same thin form as `BookReader`, which reads version 1 alone.
ghost use Rattle.std.specs.Prelude.{◌≡◌};
ghost use Rattle.rules.specs.Book.{entry_at};
ghost use Rattle.requests.specs.Both.{both};
ghost use Rattle.book.specs.Views.{found_as};
ghost use Rattle.book_reader.specs.Places.{next_place};

use crate::place_after;
use book::Record;
use refusals::Refusal;

// Kept (point 2): (d) one reader over a trait of formats needs a phantom field, a trait and two impls for what are three calls here.
#[derive(Clone, Copy)]
pub struct AnyBookReader<'a> {
    pub book: &'a [u8],
    pub place: usize,
}

impl<'a> AnyBookReader<'a> {
    // A reader of whatever the slice holds; `next` says whether it is a book.
    pub fn start(book: &'a [u8], place: usize) -> AnyBookReader<'a>
        ensures { (result.book ≡ book.entry) × (result.place ≡ place) }
    {
        AnyBookReader { book, place }
    }

    // The record at the reader's place, or why there is none. A record of version 1 has the field number 0.
    pub fn next(self) -> Result<Record, Refusal>
        ensures { found_as result ≡ entry_at (both self.entry.book.now) self.entry.book.now self.entry.place }
    {
        book_versions::any::record_at(self.book, self.place)
    }

    // The reader of the same book, one place on.
    pub fn after(self) -> AnyBookReader<'a>
        ensures { (result.book ≡ self.entry.book) × (result.place ≡ next_place self.entry.place) }
    {
        AnyBookReader {
            place: place_after(self.place),
            ..self
        }
    }
}

// What a reader at the place gives next, for a caller who holds a slice and a number.
pub fn next_at(book: &[u8], place: usize) -> Result<Record, Refusal>
    ensures { found_as result ≡ entry_at (both book.now) book.now place }
{
    AnyBookReader::start(book, place).next()
}
