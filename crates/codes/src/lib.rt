// A kind as its letter, as `datelist` reads and prints it; a kind as its code and a year as its two's complement, as the book and the
// C boundary store them; a date as one number, as it crosses that boundary.
#![tactic(auto)]

ghost use Rattle.std.specs.Prelude.{◌≡◌};
ghost use Rattle.rules.specs.Listing.{letter, kind_of_letter};
ghost use Rattle.rules.specs.Book.{kind_code, kind_of_code, twos_complement, year_of_twos};
ghost use Rattle.kinds.specs.Views.{kind_of, bits_of};
ghost use Rattle.codes.specs.Views.{lettered_as, coded_as, date_number};

use kinds::{Kind, Packed};

// Kept (point 4): (d) a kind has two numbers, its letter and its code, and `u8::from(kind)` would not say which is meant.
pub fn letter(kind: Kind) -> u8
    ensures { result ≡ letter (kind_of kind) }
{
    match kind {
        Kind::Raw => b'R',
        Kind::Date => b'D',
        Kind::Hour => b'H',
        Kind::Uniform => b'U',
        Kind::Eu5 => b'E',
        Kind::Vic3 => b'V',
    }
}

#[tactic(auto, unfolding(rules::specs::Listing::kind_of_letter))]
pub fn kind_of_letter(b: u8) -> Option<Kind>
    ensures { lettered_as result ≡ kind_of_letter b }
{
    match b {
        b'R' => Some(Kind::Raw),
        b'D' => Some(Kind::Date),
        b'H' => Some(Kind::Hour),
        b'U' => Some(Kind::Uniform),
        b'E' => Some(Kind::Eu5),
        b'V' => Some(Kind::Vic3),
        _ => None,
    }
}

pub fn kind_code(kind: Kind) -> u8
    ensures { result ≡ kind_code (kind_of kind) }
{
    match kind {
        Kind::Raw => 1,
        Kind::Date => 2,
        Kind::Hour => 3,
        Kind::Uniform => 4,
        Kind::Eu5 => 5,
        Kind::Vic3 => 6,
    }
}

// The whole number is looked at: 258 is no kind's code, though its low byte is one.
#[tactic(auto, unfolding(rules::specs::Book::kind_of_code))]
pub fn kind_of_code(code: u32) -> Option<Kind>
    ensures { coded_as result ≡ kind_of_code code }
{
    match code {
        1 => Some(Kind::Raw),
        2 => Some(Kind::Date),
        3 => Some(Kind::Hour),
        4 => Some(Kind::Uniform),
        5 => Some(Kind::Eu5),
        6 => Some(Kind::Vic3),
        _ => None,
    }
}

pub fn twos_complement(year: i16) -> u16
    ensures { result ≡ twos_complement year }
{
    year.cast_unsigned()
}

pub fn year_of_twos(twos: u16) -> i16
    ensures { result ≡ year_of_twos twos }
{
    twos.cast_signed()
}

// The number of a date, from its bits.
pub fn date_number(date: Packed) -> u32
    ensures { result ≡ date_number (bits_of date) }
{
    let year = twos_complement(date.year) as u32;
    let word = date.word as u32;
    year * 65536 + word
}
