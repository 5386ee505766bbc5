// What the kinds' own methods answer to texts, numbers and fields, and their constants, in one type.
ghost use Rattle.std.specs.Prelude.{◌≡◌};
ghost use Rattle.rules.specs.Refusals.{Gives};
ghost use Rattle.rules.specs.Kinds.{stored, least, greatest};
ghost use Rattle.kinds.specs.Views.{kind_of, fields_of, bits_of};
ghost use Rattle.pds_date.specs.Views.{made_as, parsed_as, decoded_as, guessed_as};
ghost use Rattle.replay.specs.Answers.{Dated, told_as, dated, text_answer, iso_answer, number_answer, guess_answer, fields_answer, least_answer, greatest_answer};

use date::Date;
use date_hour::DateHour;
use eu5_date::Eu5Date;
use kinds::{ExpandedRawDate, Kind, Packed};
use pds_date::{FromYmd, FromYmdh, Guessed, HasGuess, PdsDate, ReadsNumbers};
use raw_date::RawDate;
use refusals::Refusal;
use uniform_date::UniformDate;
use vic3_date::Vic3Date;

// What is told where nothing is refused: a date, a number, or that there was nothing to ask.
#[derive(Clone, Copy)]
pub(crate) enum Told {
    Date(Packed),
    Number(i32),
    Unasked,
}

// ---- what each method of a kind answers, as what is told

pub(crate) fn dated<D: PdsDate>(answer: Result<D, Refusal>) -> Result<Told, Refusal>
    ensures { told_as result ≡ dated (parsed_as D.bits answer) }
{
    let date = answer?;
    Ok(Told::Date(date.raw()))
}

pub(crate) fn made<D: PdsDate>(answer: Option<D>) -> Result<Told, Refusal>
    ensures { told_as result ≡ dated (made_as D.bits answer) }
{
    match answer {
        Some(date) => Ok(Told::Date(date.raw())),
        None => Err(Refusal::NotOfKind),
    }
}

fn decoded<D: PdsDate>(answer: Option<D>) -> Result<Told, Refusal>
    ensures { told_as result ≡ dated (decoded_as D.bits answer) }
{
    match answer {
        Some(date) => Ok(Told::Date(date.raw())),
        None => Err(Refusal::NotNumber),
    }
}

fn guessed<D: PdsDate>(answer: Option<Guessed<D>>) -> Result<Told, Refusal>
    ensures { told_as result ≡ dated (guessed_as D.bits answer) }
{
    match answer {
        Some(guess) => Ok(Told::Date(guess.date.raw())),
        None => Err(Refusal::NotNumber),
    }
}

// ---- from texts, numbers and fields
// Kept (point 2): (d) an arm calls a method at a type of its own, which is what is compared; no closure is generic over a type.

pub(crate) fn text(kind: Kind, text: &[u8]) -> Result<Told, Refusal>
    ensures { told_as result ≡ text_answer (kind_of kind) text.now }
{
    let raw = by_kind::parse(kind, text)?;
    Ok(Told::Date(raw))
}

pub(crate) fn iso(kind: Kind, text: &[u8]) -> Result<Told, Refusal>
    ensures { told_as result ≡ iso_answer (kind_of kind) text.now }
{
    let raw = by_kind::parse_iso(kind, text)?;
    Ok(Told::Date(raw))
}

pub(crate) fn number(kind: Kind, n: i32) -> Result<Told, Refusal>
    ensures { told_as result ≡ number_answer (kind_of kind) n }
{
    match kind {
        Kind::Raw => decoded(RawDate::from_binary(n)),
        Kind::Date => decoded(Date::from_binary(n)),
        Kind::Hour => decoded(DateHour::from_binary(n)),
        Kind::Uniform => Ok(Told::Unasked),
        Kind::Eu5 => decoded(Eu5Date::from_binary(n)),
        Kind::Vic3 => decoded(Vic3Date::from_binary(n)),
    }
}

pub(crate) fn guess(kind: Kind, n: i32) -> Result<Told, Refusal>
    ensures { told_as result ≡ guess_answer (kind_of kind) n }
{
    match kind {
        Kind::Raw | Kind::Uniform => Ok(Told::Unasked),
        Kind::Date => guessed(Date::from_binary_heuristic(n)),
        Kind::Hour => guessed(DateHour::from_binary_heuristic(n)),
        Kind::Eu5 => guessed(Eu5Date::from_binary_heuristic(n)),
        Kind::Vic3 => guessed(Vic3Date::from_binary_heuristic(n)),
    }
}

// D, U and E are asked without an hour.
#[tactic(auto, unfolding(rules::specs::Kinds::from_fields))]
pub(crate) fn fields(kind: Kind, f: ExpandedRawDate) -> Result<Told, Refusal>
    ensures { told_as result ≡ fields_answer (kind_of kind) (fields_of f) }
{
    let ExpandedRawDate {
        year,
        month,
        day,
        hour,
    } = f;
    match kind {
        Kind::Raw => made(RawDate::from_ymdh_opt(year, month, day, hour)),
        Kind::Date => made(Date::from_ymd_opt(year, month, day)),
        Kind::Hour => made(DateHour::from_ymdh_opt(year, month, day, hour)),
        Kind::Uniform => made(UniformDate::from_ymd_opt(year, month, day)),
        Kind::Eu5 => made(Eu5Date::from_ymd_opt(year, month, day)),
        Kind::Vic3 => made(Vic3Date::from_ymdh_opt(year, month, day, hour)),
    }
}

// ---- the constants

// The constants themselves: by these two contracts their values are those of the definitions.
#[tactic(auto, unfolding(rules::specs::Kinds::packed, rules::specs::Kinds::least))]
pub(crate) fn least(kind: Kind) -> Result<Told, Refusal>
    ensures { told_as result ≡ least_answer (kind_of kind) }
{
    match kind {
        Kind::Raw => Ok(Told::Date(RawDate::LEAST.raw)),
        Kind::Date => Ok(Told::Date(Date::LEAST.raw)),
        Kind::Hour => Ok(Told::Date(DateHour::LEAST.raw)),
        Kind::Uniform => Ok(Told::Date(UniformDate::LEAST.raw)),
        Kind::Eu5 => Ok(Told::Date(Eu5Date::LEAST.raw)),
        Kind::Vic3 => Ok(Told::Date(Vic3Date::LEAST.raw)),
    }
}

#[tactic(auto, unfolding(rules::specs::Kinds::packed, rules::specs::Kinds::greatest, rules::specs::Calendar::lengths, rules::specs::Calendar::month_length))]
pub(crate) fn greatest(kind: Kind) -> Result<Told, Refusal>
    ensures { told_as result ≡ greatest_answer (kind_of kind) }
{
    match kind {
        Kind::Raw => Ok(Told::Date(RawDate::GREATEST.raw)),
        Kind::Date => Ok(Told::Date(Date::GREATEST.raw)),
        Kind::Hour => Ok(Told::Date(DateHour::GREATEST.raw)),
        Kind::Uniform => Ok(Told::Date(UniformDate::GREATEST.raw)),
        Kind::Eu5 => Ok(Told::Date(Eu5Date::GREATEST.raw)),
        Kind::Vic3 => Ok(Told::Date(Vic3Date::GREATEST.raw)),
    }
}
