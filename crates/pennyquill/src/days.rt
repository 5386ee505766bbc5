// A date moved by days and its start of day; its number, the days between two dates, and their order.
ghost use Rattle.std.specs.Prelude.{◌≡◌};
ghost use Rattle.rules.specs.Refusals.{Gives};
ghost use Rattle.rules.specs.Kinds.{store_like};
ghost use Rattle.rules.specs.Days.{difference, add_days, start_of_day, order};
ghost use Rattle.rules.specs.Numbers.{write_number};
ghost use Rattle.kinds.specs.Views.{ordered_as};
ghost use Rattle.pennyquill.specs.Boundary.{date_in, of_date_given, of_dates_given, bits_crossed, number_crossed, order_crossed};

use crate::{PqAnswer, PqNumber, crossing};
use std::cmp::Ordering;

// ---- dates

#[unsafe(no_mangle)]
pub extern "C" fn pq_add_days(kind: u32, date: u32, days: i32) -> PqAnswer
    ensures { result ≡ bits_crossed (store_like (date_in date) (of_date_given kind date (λ k f. add_days k f days))) }
{
    let Some(kind) = codes::kind_of_code(kind) else {
        return crossing::not_of_kind();
    };
    crossing::dated(day_count::add_days(kind, crossing::date_in(date), days))
}

#[unsafe(no_mangle)]
pub extern "C" fn pq_start_of_day(kind: u32, date: u32) -> PqAnswer
    ensures { result ≡ bits_crossed (store_like (date_in date) (of_date_given kind date (λ k f. start_of_day k f))) }
{
    let Some(kind) = codes::kind_of_code(kind) else {
        return crossing::not_of_kind();
    };
    crossing::date_or_none(day_count::start_of_day(kind, crossing::date_in(date)))
}

// ---- numbers

fn order_crossed(order: Option<Ordering>) -> PqNumber
    ensures { result ≡ order_crossed (ordered_as order) }
{
    match order {
        Some(Ordering::Less) => crossing::gives_number(-1),
        Some(Ordering::Equal) => crossing::gives_number(0),
        Some(Ordering::Greater) => crossing::gives_number(1),
        None => crossing::no_number(),
    }
}

#[unsafe(no_mangle)]
pub extern "C" fn pq_to_number(kind: u32, date: u32) -> PqNumber
    ensures { result ≡ number_crossed (of_date_given kind date (λ k f. write_number k f)) }
{
    let Some(kind) = codes::kind_of_code(kind) else {
        return crossing::no_number();
    };
    crossing::number_or_none(number::to_binary(kind, crossing::date_in(date)))
}

#[unsafe(no_mangle)]
pub extern "C" fn pq_days_until(kind: u32, first: u32, second: u32) -> PqNumber
    ensures { result ≡ number_crossed (of_dates_given kind first second (λ k f g. difference k f g)) }
{
    let Some(kind) = codes::kind_of_code(kind) else {
        return crossing::no_number();
    };
    crossing::number_or_none(day_count::days_until(
        kind,
        crossing::date_in(first),
        crossing::date_in(second),
    ))
}

#[unsafe(no_mangle)]
pub extern "C" fn pq_order(kind: u32, first: u32, second: u32) -> PqNumber
    ensures { result ≡ order_crossed (of_dates_given kind first second (λ k f g. Gives (order f g))) }
{
    let Some(kind) = codes::kind_of_code(kind) else {
        return crossing::no_number();
    };
    order_crossed(kinds::compare(kind, crossing::date_in(first), crossing::date_in(second)))
}
