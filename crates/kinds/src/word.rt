// The word beside a date's year: month × 4096 + day × 128 + hour × 4, with a mark in its two low bits. It is packed and opened here alone.
ghost use Rattle.std.specs.Prelude.{◌≡◌, ◌<◌};
ghost use Rattle.rules.specs.Kinds.{mark_of, mark_allowed, stored_with, unpacked, is_guessed};
ghost use Rattle.kinds.specs.Views.{fields_of, bits_of};

use crate::{ExpandedRawDate, Packed};

// Guess readers set 1, all others 0; 2 and 3 are not allowed.
pub const NO_MARK: u16 = 0;

pub const GUESSED_MARK: u16 = 1;

// A date of these fields as it is stored, with this mark.
#[tactic(auto, unfolding(rules::specs::Kinds::packed))]
pub fn pack(mark: u16, fields: ExpandedRawDate) -> Packed
    requires { (mark < 4) × (fields.month < 16) × (fields.day < 32) × (fields.hour < 32) }
    ensures { bits_of result ≡ stored_with mark (fields_of fields) }
{
    let year = fields.year;
    let month = fields.month as u16;
    let day = fields.day as u16;
    let hour = fields.hour as u16;
    let word = month * 4096 + day * 128 + hour * 4 + mark;
    Packed { year, word }
}

// The components of a stored date, whatever its mark.
pub fn month_of(date: Packed) -> u8
    ensures { result ≡ (unpacked (bits_of date)).month }
{
    (date.word / 4096) as u8
}

pub fn day_of(date: Packed) -> u8
    ensures { result ≡ (unpacked (bits_of date)).day }
{
    (date.word / 128 % 32) as u8
}

pub fn hour_of(date: Packed) -> u8
    ensures { result ≡ (unpacked (bits_of date)).hour }
{
    (date.word / 4 % 32) as u8
}

// All of them.
pub fn fields_of(date: Packed) -> ExpandedRawDate
    ensures { fields_of result ≡ unpacked (bits_of date) }
{
    let year = date.year;
    ExpandedRawDate {
        year,
        month: month_of(date),
        day: day_of(date),
        hour: hour_of(date),
    }
}

// The mark of a stored date.
pub fn mark_of(date: Packed) -> u16
    ensures { result ≡ mark_of date.word }
{
    date.word % 4
}

// Whether a date handed in may have this mark.
pub(crate) fn mark_allowed(mark: u16) -> bool
    ensures { result ≡ mark_allowed mark }
{
    mark <= GUESSED_MARK
}

// Whether a stored date was guessed.
pub fn is_guessed(date: Packed) -> bool
    ensures { result ≡ is_guessed (bits_of date) }
{
    mark_of(date) == GUESSED_MARK
}
