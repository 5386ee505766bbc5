// Why an operation gives no value: document 01's table of refusals, and document 02's beside it.
#![tactic(auto)]

ghost use Rattle.std.specs.Prelude.{◌≡◌};
ghost use Rattle.refusals.specs.Numbers.{number_of};

// Each is named as `Refusals` of `rules` names its number, or as the subject of `requests` that brings it. A refusal of a record has
// its place.
#[derive(Clone, Copy, PartialEq, Eq)]
pub enum Refusal {
    // A text over the limit.
    TooLong,
    // A text not of that kind, or no such number after way b or g.
    NotText,
    // A number that is no date, or a guess refused.
    NotNumber,
    // Fields, or a date handed in, not of the kind.
    NotOfKind,
    // Addition: the sum is outside 32 bits.
    SumOverflows,
    // Addition: the sum is no date's.
    OutOfRange,
    // A buffer shorter than the text.
    BufferShort,
    // A listing in a lent buffer: more than 65,535 bytes to be listed.
    TooManyBytes,
    // A book or a table: its length.
    BadLength,
    // A book or a table: its version.
    BadVersion,
    // A book: a record that no date of its kind has.
    BadRecord(usize),
    // A new book or table, an append or a move: no room.
    NoRoom,
    // A book or a table: nothing at that place.
    NoRecord,
    // A field table, or a call on one: entries out of order, a field that is none, or a kind not allowed.
    BadEntry,
    // A field table: full, or no room for a new field.
    TableFull,
    // A field table: no such field to remove.
    NotThere,
    // A book of version 1: a guessed date appended, which it does not take.
    GuessedDate,
    // A book of version 2, moved back to version 1: a record with a field number or a mark.
    FieldOrMark(usize),
}

// An unreadable `datelist` line prints this number. No function gives it as a refusal: such a line asks for nothing.
pub const UNREADABLE_LINE: u8 = 8;

// The number of a refusal in the tables.
impl From<Refusal> for u8 {
    ghost from_gives = { λ refusal n. n ≡ number_of refusal };

    fn from(refusal: Refusal) -> u8 {
        match refusal {
            Refusal::TooLong => 1,
            Refusal::NotText => 2,
            Refusal::NotNumber => 3,
            Refusal::NotOfKind => 4,
            Refusal::SumOverflows => 5,
            Refusal::OutOfRange => 6,
            Refusal::BufferShort => 7,
            Refusal::TooManyBytes => 8,
            Refusal::BadLength => 9,
            Refusal::BadVersion => 10,
            Refusal::BadRecord(_) => 11,
            Refusal::NoRoom => 12,
            Refusal::NoRecord => 13,
            Refusal::BadEntry => 14,
            Refusal::TableFull => 15,
            Refusal::NotThere => 16,
            Refusal::GuessedDate => 20,
            Refusal::FieldOrMark(_) => 21,
        }
    }
}
