// Numbers to dates and back, for every kind: the fields of a number, the full decoder, the narrow guess, and what D and H write.
#![tactic(auto)]

ghost use Rattle.std.specs.Prelude.{◌≡◌, true, ℕ, ◌≤◌, ◌<◌};
ghost use Rattle.rules.specs.Refusals.{not_number};
ghost use Rattle.rules.specs.Kinds.{days_in, store_with, store_guess, store, of_date};
ghost use Rattle.rules.specs.Numbers.{number_fields, reads_numbers, decoded_hour, decoded, read_number, guesses, guess_number, writes_numbers, written_hour, write_number};
ghost use Rattle.kinds.specs.Views.{kind_of, fields_of, made_as, bits_of};
ghost use Rattle.number.specs.Views.{numbered_as, hour_in, read_as, guessed_as, written_as};

use kinds::{ExpandedRawDate, GUESSED_MARK, Kind, NO_MARK, Packed};

mod narrow;

// What the guess answers. It is not the full decoder's answer, so that neither is taken for the other.
#[derive(Clone, Copy)]
pub struct Guess {
    pub date: Packed,
}

// The numbers that have fields lie in -243,247,680 to 330,847,679.
const GREATEST: u64 = 330_847_679;

const LEAST_BELOW: u64 = 243_247_680;

// Hour, day of year and year, each truncated toward zero; a negative hour or day refuses, and so does a year of over 16 bits. So a
// number below 0 is read only at multiples of 8760, as the 1 January of a year before -5000. These are rare: read apart, they cost the
// others no division.
pub fn number_fields(s: i32) -> Option<ExpandedRawDate>
    ensures by_index { (n : ℕ) → numbered_as n result ≡ number_fields n s }
    ensures result_bound { hour_in result < 24 }
{
    let h = sign::halved(s);
    let u = h.up;
    let d = h.dn;
    if 0 < d {
        if 0 < d % 8760 {
            return None;
        }
        if LEAST_BELOW < d {
            return None;
        }
        return Some(ExpandedRawDate {
            year: sign::int::<i16>(0, d / 8760 + 5000),
            month: 1,
            day: 1,
            hour: 0,
        });
    }
    if GREATEST < u {
        return None;
    }
    let on = julian::month_day_from_julian((u / 24 % 365) as u16);
    Some(ExpandedRawDate {
        year: sign::int::<i16>(u / 8760, 5000),
        month: on.month,
        day: on.day,
        hour: (u % 24) as u8,
    })
}

// R, V and E take the hour as it is; D sets it to 0; H adds 1.
fn decoded_hour(kind: Kind, hour: u8) -> u8
    requires { hour < 24 }
    ensures { result ≡ decoded_hour (kind_of kind) hour }
{
    match kind {
        Kind::Date => 0,
        Kind::Hour => hour + 1,
        Kind::Raw | Kind::Uniform | Kind::Eu5 | Kind::Vic3 => hour,
    }
}

// The date of a number's fields, with this mark, or none of the kind: their month and day are the calendar's.
fn decode(kind: Kind, mark: u16, fields: ExpandedRawDate) -> Option<Packed>
    requires mark_bound { (mark < 4) × (fields.hour < 24) }
    requires le_month { (1 ≤ fields.month) × (fields.month ≤ 12) × (1 ≤ fields.day) × (fields.day ≤ days_in (kind_of kind) fields.month) }
    ensures { made_as not_number result ≡ store_with mark (decoded (kind_of kind) (fields_of fields)) }
{
    let hour = decoded_hour(kind, fields.hour);
    kinds::settle_day(kind, mark, ExpandedRawDate { hour, ..fields })
}

// U reads no number outside text.
pub fn reads_numbers(kind: Kind) -> bool
    ensures { result ≡ reads_numbers (kind_of kind) }
{
    match kind {
        Kind::Raw | Kind::Date | Kind::Hour | Kind::Eu5 | Kind::Vic3 => true,
        Kind::Uniform => false,
    }
}

// R and U have no guess.
pub fn has_guess(kind: Kind) -> bool
    ensures { result ≡ guesses (kind_of kind) }
{
    match kind {
        Kind::Date | Kind::Hour | Kind::Eu5 | Kind::Vic3 => true,
        Kind::Raw | Kind::Uniform => false,
    }
}

// The full decoder, over the kind.
fn read_as(kind: Kind, s: i32) -> Option<Packed>
    requires { reads_numbers (kind_of kind) ≡ true }
    ensures { read_as result ≡ store (read_number (kind_of kind) s) }
{
    let fields = number_fields(s)?;
    decode(kind, NO_MARK, fields)
}

// The full decoder: for a field that is declared as a date. U has none. In each arm the kind is known when the code is compiled, so that
// nothing is left of the tests that are over the kind.
pub fn from_binary(kind: Kind, s: i32) -> Option<Packed>
    requires { reads_numbers (kind_of kind) ≡ true }
    ensures { read_as result ≡ store (read_number (kind_of kind) s) }
{
    match kind {
        Kind::Raw => read_as(Kind::Raw, s),
        Kind::Date => read_as(Kind::Date, s),
        Kind::Hour => read_as(Kind::Hour, s),
        Kind::Uniform => None,
        Kind::Eu5 => read_as(Kind::Eu5, s),
        Kind::Vic3 => read_as(Kind::Vic3, s),
    }
}

// The guess by a number's fields.
fn guess_by_fields(kind: Kind, s: i32) -> Option<Guess>
    requires { guesses (kind_of kind) ≡ true }
    ensures { guessed_as result ≡ store_guess (guess_number (kind_of kind) s) }
{
    let fields = number_fields(s)?;
    if narrow::passes_guess(kind, fields) {
        let date = decode(kind, GUESSED_MARK, fields)?;
        return Some(Guess { date });
    }
    None
}

// The guess, over the kind.
fn guess_as(kind: Kind, s: i32) -> Option<Guess>
    requires { guesses (kind_of kind) ≡ true }
    ensures { guessed_as result ≡ store_guess (guess_number (kind_of kind) s) }
{
    if narrow::may_pass(kind, s) {
        return guess_by_fields(kind, s);
    }
    None
}

// The narrow guess: for a number that no one declared. R and U have none. Kind by kind, as the full decoder. Its dates are marked as
// guessed.
pub fn from_binary_heuristic(kind: Kind, s: i32) -> Option<Guess>
    requires { guesses (kind_of kind) ≡ true }
    ensures { guessed_as result ≡ store_guess (guess_number (kind_of kind) s) }
{
    if narrow::is_early(s) {
        return None;
    }
    match kind {
        Kind::Raw => None,
        Kind::Date => guess_as(Kind::Date, s),
        Kind::Hour => guess_as(Kind::Hour, s),
        Kind::Uniform => None,
        Kind::Eu5 => guess_as(Kind::Eu5, s),
        Kind::Vic3 => guess_as(Kind::Vic3, s),
    }
}

// D and H write numbers.
fn writes_numbers(kind: Kind) -> bool
    ensures { result ≡ writes_numbers (kind_of kind) }
{
    match kind {
        Kind::Date | Kind::Hour => true,
        Kind::Raw | Kind::Uniform | Kind::Eu5 | Kind::Vic3 => false,
    }
}

// H's hours start at 1, and what it writes at 0; D writes none.
fn written_hour(kind: Kind, hour: u8) -> u8
    ensures { result ≡ written_hour (kind_of kind) hour }
{
    match kind {
        Kind::Hour => hour.saturating_sub(1),
        Kind::Raw | Kind::Date | Kind::Uniform | Kind::Eu5 | Kind::Vic3 => 0,
    }
}

// The number of a date: what D and H write.
pub fn to_binary(kind: Kind, date: Packed) -> Option<i32>
    ensures { written_as result ≡ of_date (kind_of kind) (bits_of date) (λ f. write_number (kind_of kind) f) }
{
    if writes_numbers(kind) {
        let fields = kinds::unpack(kind, date)?;
        let day = julian::day_of_year(fields.month, fields.day);
        let hour = written_hour(kind, fields.hour);
        return Some(julian::to_binary(fields.year, day, hour));
    }
    None
}
