// What the six kinds share: the kind, a date's fields, its packed word, and the one maker and the one opener over the kind.
#![tactic(auto)]

ghost use Rattle.std.specs.Prelude.{◌≡◌, ℕ, ◌≤◌, ◌<◌, Some};
ghost use Rattle.rules.specs.Kinds.{days_in, hour_fits, fits_kind, made, field_set_hour, from_fields, settled_hour, settled, unpacked, handed, of_dates, store_with, store, without_mark};
ghost use Rattle.rules.specs.Refusals.{Gives, given, not_of_kind};
ghost use Rattle.rules.specs.Days.{order};
ghost use Rattle.kinds.specs.HourBits.{hour_bits};
ghost use Rattle.kinds.specs.Views.{kind_of, fields_of, bits_of, made_as, opened_as, ordered_as};

pub use word::{
    GUESSED_MARK, NO_MARK, day_of, fields_of, hour_of, is_guessed, mark_of, month_of, pack,
};

mod word;

use std::cmp::Ordering;

// R raw, D plain, H hourly, U uniform, E EU5, V Victoria 3.
#[derive(Clone, Copy, PartialEq, Eq)]
pub enum Kind {
    Raw,
    Date,
    Hour,
    Uniform,
    Eu5,
    Vic3,
}

// A date where each component is a full data type.
#[derive(Clone, Copy, PartialEq, Eq)]
pub struct ExpandedRawDate {
    pub year: i16,
    pub month: u8,
    pub day: u8,
    pub hour: u8,
}

// A date as it is stored: the year, and month × 4096 + day × 128 + hour × 4 beside it, with its mark added. Any bits can be handed in.
// It has no `==`, which would see the mark: two dates are compared by `compare`.
#[derive(Clone, Copy)]
pub struct Packed {
    pub year: i16,
    pub word: u16,
}

// The greatest day of a month. The month's length is worked out for every kind: the kind then only chooses, which costs no jump.
fn days_in(kind: Kind, month: u8) -> u8
    ensures { result ≡ days_in (kind_of kind) month }
{
    let length = julian::month_length(month);
    match kind {
        Kind::Raw => 31,
        Kind::Uniform => 30,
        Kind::Date | Kind::Hour | Kind::Eu5 | Kind::Vic3 => length,
    }
}

// The hours of a kind as the bits of a word: bit h is 1 where h is one of them.
fn hours(kind: Kind) -> u32
    ensures { result ≡ hour_bits (kind_of kind) }
{
    match kind {
        Kind::Raw => 0x1ff_ffff, // 0 to 24
        Kind::Date => 1, // 0
        Kind::Hour => 0x1ff_fffe, // 1 to 24
        Kind::Uniform => 1, // 0
        Kind::Eu5 => 0x7f_ffff, // 0 to 22
        Kind::Vic3 => 0x4_1041, // 0, 6, 12 and 18
    }
}

// Whether an hour is one of the kind's. The word is looked up: a test for each kind would be a jump that the processor cannot foresee in a
// book of many kinds.
fn hour_fits(kind: Kind, hour: u8) -> bool
    ensures { result ≡ hour_fits (kind_of kind) hour }
{
    if 31 < hour {
        return false;
    }
    (hours(kind) >> hour) % 2 == 1
}

// Whether month, day and hour are those of a date of the kind.
#[tactic(auto, unfolding(rules::specs::Kinds::fits_kind))]
fn fits_kind(kind: Kind, month: u8, day: u8, hour: u8) -> bool
    ensures { result ≡ fits_kind (kind_of kind) month day hour }
{
    if month < 1 {
        return false;
    }
    if 12 < month {
        return false;
    }
    if day < 1 {
        return false;
    }
    if days_in(kind, month) < day {
        return false;
    }
    hour_fits(kind, hour)
}

// A date of the kind with these fields, or none.
pub fn make(kind: Kind, fields: ExpandedRawDate) -> Option<Packed>
    ensures { (n : ℕ) → made_as n result ≡ store (made (kind_of kind) n (fields_of fields)) }
{
    if fits_kind(kind, fields.month, fields.day, fields.hour) {
        return Some(pack(NO_MARK, fields));
    }
    None
}

// The hour of a field set: those of R, H and V carry one; those of D, U and E carry none, and theirs is 0.
fn field_set_hour(kind: Kind, hour: u32) -> u32
    ensures { result ≡ field_set_hour (kind_of kind) hour }
{
    match kind {
        Kind::Raw | Kind::Hour | Kind::Vic3 => hour,
        Kind::Date | Kind::Uniform | Kind::Eu5 => 0,
    }
}

// A date of these numbers. One that its own type in a date does not hold is of no date: it is refused, and never cut to size.
fn make_wide(kind: Kind, year: i32, month: u32, day: u32, hour: u32) -> Option<Packed>
    ensures { made_as not_of_kind result ≡ store (made (kind_of kind) not_of_kind (record { year = year; month = month; day = day; hour = hour })) }
{
    let fields = ExpandedRawDate {
        year: i16::try_from(year).ok()?,
        month: u8::try_from(month).ok()?,
        day: u8::try_from(day).ok()?,
        hour: u8::try_from(hour).ok()?,
    };
    make(kind, fields)
}

// A date of a field set, of any numbers.
#[tactic(auto, unfolding(rules::specs::Kinds::from_fields))]
pub fn from_fields(kind: Kind, year: i32, month: u32, day: u32, hour: u32) -> Option<Packed>
    ensures { made_as not_of_kind result ≡ store (from_fields (kind_of kind) (record { year = year; month = month; day = day; hour = hour })) }
{
    make_wide(kind, year, month, day, field_set_hour(kind, hour))
}

// E's hour 23 becomes 22.
fn settled_hour(kind: Kind, hour: u8) -> u8
    ensures { result ≡ settled_hour (kind_of kind) hour }
{
    match kind {
        Kind::Eu5 if hour == 23 => 22,
        _ => hour,
    }
}

// A date of the kind with the fields that a text or a number has, or none.
pub fn settle(kind: Kind, fields: ExpandedRawDate) -> Option<Packed>
    ensures { (n : ℕ) → made_as n result ≡ store (settled (kind_of kind) n (fields_of fields)) }
{
    let hour = settled_hour(kind, fields.hour);
    make(kind, ExpandedRawDate { hour, ..fields })
}

// The same where the month and the day are of the kind, with this mark: the hour alone is tested.
pub fn settle_day(kind: Kind, mark: u16, fields: ExpandedRawDate) -> Option<Packed>
    requires mark_bound { mark < 4 }
    requires le_month { (1 ≤ fields.month) × (fields.month ≤ 12) × (1 ≤ fields.day) × (fields.day ≤ days_in (kind_of kind) fields.month) }
    ensures { (n : ℕ) → made_as n result ≡ store_with mark (settled (kind_of kind) n (fields_of fields)) }
{
    let hour = settled_hour(kind, fields.hour);
    if hour_fits(kind, hour) {
        return Some(pack(mark, ExpandedRawDate { hour, ..fields }));
    }
    None
}

// The fields of a date handed in. Every operation on a date goes through here first.
pub fn unpack(kind: Kind, date: Packed) -> Option<ExpandedRawDate>
    ensures { opened_as result ≡ handed (kind_of kind) (bits_of date) }
{
    if word::mark_allowed(mark_of(date)) {
        let fields = fields_of(date);
        if fits_kind(kind, fields.month, fields.day, fields.hour) {
            return Some(fields);
        }
    }
    None
}

// Whether a date handed in is one of the kind.
pub fn is_of_kind(kind: Kind, date: Packed) -> bool
    ensures { result ≡ given (handed (kind_of kind) (bits_of date)) }
{
    unpack(kind, date).is_some()
}

// A date handed in, handed out again without its mark.
pub fn without_mark(kind: Kind, date: Packed) -> Option<Packed>
    ensures { made_as not_of_kind result ≡ without_mark (kind_of kind) (bits_of date) }
{
    let fields = unpack(kind, date)?;
    Some(pack(NO_MARK, fields))
}

// Year, then packed word: the word without its mark, which is no field.
pub fn order_of(first: Packed, second: Packed) -> Ordering
    ensures { ordered_as (Some result) ≡ Gives (order (unpacked (bits_of first)) (unpacked (bits_of second))) }
{
    match first.year.cmp(&second.year) {
        Ordering::Equal => (first.word / 4).cmp(&(second.word / 4)),
        unequal => unequal,
    }
}

// The order of two dates of one kind.
pub fn compare(kind: Kind, first: Packed, second: Packed) -> Option<Ordering>
    ensures { ordered_as result ≡ of_dates (kind_of kind) (bits_of first) (bits_of second) (λ f g. Gives (order f g)) }
{
    unpack(kind, first)?;
    unpack(kind, second)?;
    Some(order_of(first, second))
}
