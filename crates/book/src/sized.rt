// The operations of a book whose records have any size from five bytes on, over its format: `book_of` says it. A record's kind stands in
// its first byte, its date in its last four, and its field number in the two after the kind where there are seven or more.
ghost use Rattle.std.specs.Prelude.{◌≡◌, true, ◌+◌, ◌*◌, ◌≤◌, ◌<◌, length, drop};
ghost use Rattle.rules.specs.Refusals.{Gives, given};
ghost use Rattle.rules.specs.Book.{head_size, pieces, first_bad, check, append_answer, append_buffer, entry_at};
ghost use Rattle.book.specs.Views.{least_size, sound_sized, book_of, checked_as, found_as, appended_as};

use crate::{Record, slots};
use frame::{Frame, HEAD_SIZE};
use refusals::Refusal;

// The frame of a book, and whether its records are plain, without field number and mark. A record has a kind's byte and a date's four.
#[derive(Clone, Copy)]
pub struct Format {
    pub frame: Frame,
    pub plain: bool,
    pub ghost least: { least_size ≤ frame.size },
}

impl Format {
    // The place of the first of n records that is not sound, or n. Of a book that was checked: with `plain`, of the first that has a field
    // number or a mark.
    pub fn first_bad(self, b: &[u8], n: usize) -> usize
        requires { head_size + n * self.frame.size ≤ length b.now }
        ensures { result ≡ first_bad (sound_sized self.frame.size self.plain) (pieces n self.frame.size (drop head_size b.now)) }
    {
        for i in 0..n {
            if !slots::sound_at(b, HEAD_SIZE + i * self.frame.size, self) {
                return i;
            }
        }
        n
    }

    // Whether the buffer starts with a book, and how many records it has.
    pub fn check_of(self, b: &[u8]) -> Result<usize, Refusal>
        ensures { checked_as result ≡ check (book_of self.frame.size self.frame.most self.frame.version self.plain) b.now }
    {
        let n = self.frame.pieces_in(b)?;
        let bad = self.first_bad(b, n);
        if bad < n {
            return Err(Refusal::BadRecord(bad));
        }
        Ok(n)
    }

    // The record at a place of a book that was checked: the most records and the version are those of that check. A checked book has no
    // bad record, so that refusal is never given here.
    pub fn entry_of(self, b: &[u8], place: usize) -> Result<Record, Refusal>
        requires { given (check (book_of self.frame.size self.frame.most self.frame.version self.plain) b.now) ≡ true }
        ensures { found_as result ≡ entry_at (book_of self.frame.size self.frame.most self.frame.version self.plain) b.now place }
    {
        let said = frame::length_said(b);
        if place < (said - 1) / self.frame.size {
            slots::slot_at(b, HEAD_SIZE + place * self.frame.size, self).ok_or(Refusal::BadRecord(
                place,
            ))
        } else {
            Err(Refusal::NoRecord)
        }
    }

    // The record at a place of whatever the buffer holds.
    pub fn record_of(self, b: &[u8], place: usize) -> Result<Record, Refusal>
        ensures { found_as result ≡ entry_at (book_of self.frame.size self.frame.most self.frame.version self.plain) b.now place }
    {
        self.check_of(b)?;
        self.entry_of(b, place)
    }

    // Writes a record's bytes after the last record, and gives its place. The records of the book have as many bytes as that one, whatever
    // size the format says; bytes that are none of them, those of a guessed date in a plain book, are refused last.
    pub fn append_record(self, b: &mut [u8], piece: &[u8]) -> Result<usize, Refusal>
        requires { (least_size ≤ length piece.now) × (1 + self.frame.most * length piece.now < 4294967296) }
        ensures result_value { appended_as result ≡ append_answer (book_of (length piece.now) self.frame.most self.frame.version self.plain) (Gives piece.now) b.old }
        ensures b_after { b.new ≡ append_buffer (book_of (length piece.now) self.frame.most self.frame.version self.plain) (Gives piece.now) b.old }
    {
        let size = piece.len();
        let format = Format {
            frame: Frame {
                size,
                most: self.frame.most,
                version: self.frame.version,
            },
            plain: self.plain,
        };
        let n = format.check_of(b)?;
        if self.frame.most <= n {
            return Err(Refusal::NoRoom);
        }
        let at = HEAD_SIZE + n * size;
        if b.len() < at + size {
            return Err(Refusal::NoRoom);
        }
        if !slots::sound_at(piece, 0, format) {
            return Err(Refusal::GuessedDate);
        }
        slots::put(b, at, piece);
        frame::put_length(b, 1 + (n + 1) * size);
        Ok(n)
    }
}
