// A date from the number that crosses, and the answers.
ghost use Rattle.std.specs.Prelude.{◌≡◌, ◌≤◌, ℕ};
ghost use Rattle.rules.specs.Refusals.{Gives, Refused, not_of_kind};
ghost use Rattle.refusals.specs.Answers.{refusal_as, result_as, option_as};
ghost use Rattle.kinds.specs.Views.{bits_of, made_as};
ghost use Rattle.codes.specs.Views.{date_number};
ghost use Rattle.pennyquill.specs.Boundary.{date_in, crossed, bits_crossed, number_crossed, number_of, place_of};

use crate::{PqAnswer, PqNumber};
use kinds::Packed;
use refusals::Refusal;

// The bits of a date, from its number; any number has some.
pub fn date_in(date: u32) -> Packed
    ensures { bits_of result ≡ date_in date }
{
    let year = codes::year_of_twos((date / 65536) as u16);
    let word = (date % 65536) as u16;
    Packed { year, word }
}

// ---- answers

pub fn gives(value: u32) -> PqAnswer
    ensures { result ≡ crossed (Gives value) }
{
    PqAnswer { refusal: 0, value }
}

pub fn gives_date(date: Packed) -> PqAnswer
    ensures { result ≡ crossed (Gives (date_number (bits_of date))) }
{
    gives(codes::date_number(date))
}

// The place of a record that is refused; every other refusal has none, and 0 is handed out.
fn place_of(refusal: Refusal) -> u32
    requires { place_of (refusal_as {A = ℕ} refusal) ≤ 4294967295 }
    ensures { result ≡ place_of (refusal_as {A = ℕ} refusal) }
{
    match refusal {
        Refusal::BadRecord(place) | Refusal::FieldOrMark(place) => place as u32,
        _ => 0,
    }
}

pub fn refusal_told(refusal: Refusal) -> PqAnswer
    requires { place_of (refusal_as {A = ℕ} refusal) ≤ 4294967295 }
    ensures { result ≡ crossed (refusal_as refusal) }
{
    PqAnswer {
        refusal: u8::from(refusal) as u32,
        value: place_of(refusal),
    }
}

pub fn not_of_kind() -> PqAnswer
    ensures { result ≡ crossed (Refused not_of_kind) }
{
    refusal_told(Refusal::NotOfKind)
}

// A count, a length or a place.
pub fn counted(answer: Result<usize, Refusal>) -> PqAnswer
    requires { number_of (result_as (λ n. n) answer) ≤ 4294967295 }
    ensures { result ≡ crossed (result_as (λ n. n) answer) }
{
    match answer {
        Ok(n) => gives(n as u32),
        Err(refusal) => refusal_told(refusal),
    }
}

pub fn dated(answer: Result<Packed, Refusal>) -> PqAnswer
    requires { place_of (result_as bits_of answer) ≤ 4294967295 }
    ensures { result ≡ bits_crossed (result_as bits_of answer) }
{
    match answer {
        Ok(date) => gives_date(date),
        Err(refusal) => refusal_told(refusal),
    }
}

// A date, or none of that kind.
pub fn date_or_none(date: Option<Packed>) -> PqAnswer
    ensures { result ≡ bits_crossed (made_as not_of_kind date) }
{
    match date {
        Some(date) => gives_date(date),
        None => not_of_kind(),
    }
}

pub fn gives_number(value: i32) -> PqNumber
    ensures { result ≡ number_crossed (Gives value) }
{
    PqNumber { refusal: 0, value }
}

pub fn no_number() -> PqNumber
    ensures { result ≡ number_crossed (Refused not_of_kind) }
{
    PqNumber {
        refusal: u8::from(Refusal::NotOfKind) as u32,
        value: 0,
    }
}

// A number, or none since a date is not of the kind.
pub fn number_or_none(number: Option<i32>) -> PqNumber
    ensures { result ≡ number_crossed (option_as not_of_kind (λ n. n) number) }
{
    match number {
        Some(n) => gives_number(n),
        None => no_number(),
    }
}
