// Dates read: from a text, from an ISO text, from a number by the full decoder or by the guess, and from fields; and a date without its
// mark.
ghost use Rattle.std.specs.Prelude.{◌≡◌};
ghost use Rattle.rules.specs.Kinds.{from_fields, store_guess, without_mark};
ghost use Rattle.rules.specs.Numbers.{read_number, guess_number};
ghost use Rattle.rules.specs.Text.{read_text};
ghost use Rattle.requests.specs.IsoReader.{read_iso};
ghost use Rattle.number.specs.Views.{read_as, guessed_as};
ghost use Rattle.pennyquill.specs.Boundary.{date_in, of_kind_given, bits_crossed, date_crossed};

use crate::{PqAnswer, crossing};
use kinds::Packed;
use number::Guess;
use refusals::Refusal;

// ---- from a text

#[unsafe(no_mangle)]
pub extern "C" fn pq_read_text(kind: u32, text: &[u8]) -> PqAnswer
    ensures { result ≡ date_crossed (of_kind_given kind (λ k. read_text k text.now)) }
{
    let Some(kind) = codes::kind_of_code(kind) else {
        return crossing::not_of_kind();
    };
    crossing::dated(by_kind::parse(kind, text))
}

#[unsafe(no_mangle)]
pub extern "C" fn pq_read_iso(kind: u32, text: &[u8]) -> PqAnswer
    ensures { result ≡ date_crossed (of_kind_given kind (λ k. read_iso k text.now)) }
{
    let Some(kind) = codes::kind_of_code(kind) else {
        return crossing::not_of_kind();
    };
    crossing::dated(by_kind::parse_iso(kind, text))
}

// ---- from a number

fn read_crossed(read: Option<Packed>) -> PqAnswer
    ensures { result ≡ bits_crossed (read_as read) }
{
    match read {
        Some(date) => crossing::gives_date(date),
        None => crossing::refusal_told(Refusal::NotNumber),
    }
}

fn guess_crossed(guess: Option<Guess>) -> PqAnswer
    ensures { result ≡ bits_crossed (guessed_as guess) }
{
    match guess {
        Some(guess) => crossing::gives_date(guess.date),
        None => crossing::refusal_told(Refusal::NotNumber),
    }
}

#[unsafe(no_mangle)]
pub extern "C" fn pq_read_number(kind: u32, number: i32) -> PqAnswer
    ensures { result ≡ date_crossed (of_kind_given kind (λ k. read_number k number)) }
{
    let Some(kind) = codes::kind_of_code(kind) else {
        return crossing::not_of_kind();
    };
    if number::reads_numbers(kind) {
        return read_crossed(number::from_binary(kind, number));
    }
    crossing::not_of_kind()
}

#[unsafe(no_mangle)]
pub extern "C" fn pq_guess_number(kind: u32, number: i32) -> PqAnswer
    ensures { result ≡ bits_crossed (store_guess (of_kind_given kind (λ k. guess_number k number))) }
{
    let Some(kind) = codes::kind_of_code(kind) else {
        return crossing::not_of_kind();
    };
    if number::has_guess(kind) {
        return guess_crossed(number::from_binary_heuristic(kind, number));
    }
    crossing::not_of_kind()
}

// ---- from fields, and from a date

#[unsafe(no_mangle)]
pub extern "C" fn pq_from_fields(kind: u32, year: i32, month: u32, day: u32, hour: u32) -> PqAnswer
    ensures { result ≡ date_crossed (of_kind_given kind (λ k. from_fields k (record { year = year; month = month; day = day; hour = hour }))) }
{
    let Some(kind) = codes::kind_of_code(kind) else {
        return crossing::not_of_kind();
    };
    crossing::date_or_none(kinds::from_fields(kind, year, month, day, hour))
}

#[unsafe(no_mangle)]
pub extern "C" fn pq_without_mark(kind: u32, date: u32) -> PqAnswer
    ensures { result ≡ bits_crossed (of_kind_given kind (λ k. without_mark k (date_in date))) }
{
    let Some(kind) = codes::kind_of_code(kind) else {
        return crossing::not_of_kind();
    };
    crossing::date_or_none(kinds::without_mark(kind, crossing::date_in(date)))
}
