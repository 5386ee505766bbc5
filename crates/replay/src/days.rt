// What the kinds' own methods on dates answer: additions, differences, the number of a date, the order of two.
ghost use Rattle.std.specs.Prelude.{◌≡◌};
ghost use Rattle.kinds.specs.Views.{kind_of, ordered_as};
ghost use Rattle.day_count.specs.Views.{counted_as};
ghost use Rattle.replay.specs.Answers.{told_as, counted, ordering, sum_answer, difference_answer, binary_answer, order_answer};

use crate::answers;
use crate::answers::Told;
use date::Date;
use date_hour::DateHour;
use eu5_date::Eu5Date;
use kinds::{Kind, Packed};
use pds_date::{CountsDays, PdsDate, WritesNumbers};
use raw_date::RawDate;
use refusals::Refusal;
use std::cmp::Ordering;
use uniform_date::UniformDate;
use vic3_date::Vic3Date;

// Kept (point 2): (d) an arm calls a method at a type of its own, which is what is compared; no closure is generic over a type.
pub(crate) fn sum(kind: Kind, raw: Packed, days: i32) -> Result<Told, Refusal>
    ensures { told_as result ≡ sum_answer (kind_of kind) raw days }
{
    match kind {
        Kind::Raw | Kind::Hour | Kind::Uniform => Ok(Told::Unasked),
        Kind::Date => answers::dated(Date { raw }.add_days(days)),
        Kind::Eu5 => answers::dated(Eu5Date { raw }.add_days(days)),
        Kind::Vic3 => answers::dated(Vic3Date { raw }.add_days(days)),
    }
}

// A number, or that a date is not one of the kind.
fn counted(answer: Option<i32>) -> Result<Told, Refusal>
    ensures { told_as result ≡ counted (counted_as answer) }
{
    match answer {
        Some(n) => Ok(Told::Number(n)),
        None => Err(Refusal::NotOfKind),
    }
}

pub(crate) fn difference(kind: Kind, raw: Packed, other: Packed) -> Result<Told, Refusal>
    ensures { told_as result ≡ difference_answer (kind_of kind) raw other }
{
    match kind {
        Kind::Raw | Kind::Hour | Kind::Uniform => Ok(Told::Unasked),
        Kind::Date => counted(Date { raw }.days_until(Date { raw: other })),
        Kind::Eu5 => counted(Eu5Date { raw }.days_until(Eu5Date { raw: other })),
        Kind::Vic3 => counted(Vic3Date { raw }.days_until(Vic3Date { raw: other })),
    }
}

pub(crate) fn binary(kind: Kind, raw: Packed) -> Result<Told, Refusal>
    ensures { told_as result ≡ binary_answer (kind_of kind) raw }
{
    match kind {
        Kind::Date => counted(Date { raw }.to_binary()),
        Kind::Hour => counted(DateHour { raw }.to_binary()),
        Kind::Raw | Kind::Uniform | Kind::Eu5 | Kind::Vic3 => Ok(Told::Unasked),
    }
}

// As the original's `cmp` has it: -1, 0 or 1.
fn ordered(answer: Option<Ordering>) -> Result<Told, Refusal>
    ensures { told_as result ≡ ordering (ordered_as answer) }
{
    match answer {
        Some(Ordering::Less) => Ok(Told::Number(-1)),
        Some(Ordering::Equal) => Ok(Told::Number(0)),
        Some(Ordering::Greater) => Ok(Told::Number(1)),
        None => Err(Refusal::NotOfKind),
    }
}

pub(crate) fn order(kind: Kind, raw: Packed, other: Packed) -> Result<Told, Refusal>
    ensures { told_as result ≡ order_answer (kind_of kind) raw other }
{
    match kind {
        Kind::Raw => ordered(RawDate { raw }.compare(RawDate { raw: other })),
        Kind::Date => ordered(Date { raw }.compare(Date { raw: other })),
        Kind::Hour => ordered(DateHour { raw }.compare(DateHour { raw: other })),
        Kind::Uniform => ordered(UniformDate { raw }.compare(UniformDate { raw: other })),
        Kind::Eu5 => ordered(Eu5Date { raw }.compare(Eu5Date { raw: other })),
        Kind::Vic3 => ordered(Vic3Date { raw }.compare(Vic3Date { raw: other })),
    }
}
