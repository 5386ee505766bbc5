// A row, read from its front on. Where a part is not found the reader is past the end, and finds nothing from then on: so a row is read to
// its end, and tested once.
ghost use Rattle.std.specs.Prelude.{◌≡◌, drop};
ghost use Rattle.rules.specs.Listing.{kind_of_letter};
ghost use Rattle.rows.specs.Rows.{first_byte, after_byte, after_word, ends_row, natural_of, whole_of};
ghost use Rattle.codes.specs.Views.{lettered_as};
ghost use Rattle.script.specs.Naturals.{natural_up_to};
ghost use Rattle.script.specs.Reader.{left, spaced, year_of};

use crate::naturals;
use crate::naturals::Part;
use kinds::{Kind, Packed};

// A row, and the place that is read next.
#[derive(Clone, Copy)]
pub struct Reader<'a> {
    row: &'a [u8],
    at: usize,
}

impl<'a> Reader<'a> {
    pub fn new(row: &'a [u8]) -> Self
        ensures { left result ≡ row.now }
    {
        Reader { row, at: 0 }
    }

    // The same row after a word that has to be next.
    pub fn after(self, word: &[u8]) -> Self
        ensures { left result ≡ after_word word.now (left self.entry) }
    {
        Reader {
            row: self.row,
            at: rows::after_word(self.row, self.at, word),
        }
    }

    // The byte that is next, 0 past the end.
    pub fn byte(self) -> u8
        ensures { result ≡ first_byte (left self.entry) }
    {
        rows::byte(self.row, self.at)
    }

    // Whether nothing but the line end is left.
    pub fn ends(self) -> bool
        ensures { result ≡ ends_row (left self.entry) }
    {
        rows::ends(self.row, self.at)
    }

    // ---- a space, and what follows it

    fn spaced(self) -> usize
        ensures { drop result self.entry.row.now ≡ spaced (left self.entry) }
    {
        rows::after(self.row, self.at, b' ')
    }

    // A place or a length.
    pub fn place(&mut self) -> usize
        ensures value { result ≡ (natural_of (spaced (left self.old))).up }
        ensures rest { left self.new ≡ (natural_of (spaced (left self.old))).rest }
    {
        let n = rows::natural(self.row, self.spaced());
        self.at = n.next;
        naturals::place_of(n.up)
    }

    pub fn byte8(&mut self) -> u8
        ensures value { result ≡ (natural_up_to 255 (spaced (left self.old))).value }
        ensures rest { left self.new ≡ (natural_up_to 255 (spaced (left self.old))).rest }
    {
        let Part { value, next } = naturals::byte8(self.row, self.spaced());
        self.at = next;
        value
    }

    pub fn word16(&mut self) -> u16
        ensures value { result ≡ (natural_up_to 65535 (spaced (left self.old))).value }
        ensures rest { left self.new ≡ (natural_up_to 65535 (spaced (left self.old))).rest }
    {
        let Part { value, next } = naturals::at_most(self.row, self.spaced(), 0xffff);
        self.at = next;
        value as u16
    }

    pub fn word32(&mut self) -> u32
        ensures value { result ≡ (natural_up_to 4294967295 (spaced (left self.old))).value }
        ensures rest { left self.new ≡ (natural_up_to 4294967295 (spaced (left self.old))).rest }
    {
        let Part { value, next } = naturals::word32(self.row, self.spaced());
        self.at = next;
        value
    }

    pub fn whole32(&mut self) -> i32
        ensures value { result ≡ (whole_of (spaced (left self.old))).value }
        ensures rest { left self.new ≡ (whole_of (spaced (left self.old))).rest }
    {
        let rows::Whole { value, next } = rows::whole32(self.row, self.spaced());
        self.at = next;
        value
    }

    // The kind of a letter.
    pub fn kind(&mut self) -> Option<Kind>
        ensures value { lettered_as result ≡ kind_of_letter (first_byte (spaced (left self.old))) }
        ensures rest { left self.new ≡ after_byte (first_byte (spaced (left self.old))) (spaced (left self.old)) }
    {
        let at = self.spaced();
        let letter = rows::byte(self.row, at);
        self.at = rows::after(self.row, at, letter);
        codes::kind_of_letter(letter)
    }

    // A date's bits: its year and its word.
    pub fn date(&mut self) -> Packed
        ensures year { result.year ≡ (year_of (spaced (left self.old))).value }
        ensures word { result.word ≡ (natural_up_to 65535 (spaced (year_of (spaced (left self.old))).rest)).value }
        ensures rest { left self.new ≡ (natural_up_to 65535 (spaced (year_of (spaced (left self.old))).rest)).rest }
    {
        let year = self.year();
        let word = self.word16();
        Packed { year, word }
    }

    fn year(&mut self) -> i16
        ensures value { result ≡ (year_of (spaced (left self.old))).value }
        ensures rest { left self.new ≡ (year_of (spaced (left self.old))).rest }
    {
        let rows::Number { up, dn, next } = rows::signed(self.row, self.spaced());
        if 32767 < up || 32768 < dn {
            self.at = rows::NOWHERE;
            return 0;
        }
        self.at = next;
        sign::int::<i16>(up, dn)
    }
}
