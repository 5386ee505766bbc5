// A date of H moved by hours, and the hours between two; the same of V in blocks of six hours.
ghost use Rattle.std.specs.Prelude.{◌≡◌};
ghost use Rattle.rules.specs.Kinds.{store_like};
ghost use Rattle.requests.specs.Hours.{add_count, add_hours, add_blocks, count_between, hours_between, blocks_between};
ghost use Rattle.pennyquill.specs.Boundary.{date_in, of_date_given, of_dates_given, bits_crossed, number_crossed};

use crate::{PqAnswer, PqNumber, crossing};

// ---- over the hours of a block

fn added(kind: u32, block: u64, date: u32, count: i32) -> PqAnswer
    ensures { result ≡ bits_crossed (store_like (date_in date) (of_date_given kind date (λ k f. add_count block k f count))) }
{
    let Some(kind) = codes::kind_of_code(kind) else {
        return crossing::not_of_kind();
    };
    crossing::dated(hour_count::add(kind, block, crossing::date_in(date), count))
}

fn between(kind: u32, block: u64, first: u32, second: u32) -> PqNumber
    ensures { result ≡ number_crossed (of_dates_given kind first second (λ k f g. count_between block k f g)) }
{
    let Some(kind) = codes::kind_of_code(kind) else {
        return crossing::no_number();
    };
    crossing::number_or_none(hour_count::until(
        kind,
        block,
        crossing::date_in(first),
        crossing::date_in(second),
    ))
}

// ---- hours, and blocks of six

#[unsafe(no_mangle)]
pub extern "C" fn pq_add_hours(kind: u32, date: u32, hours: i32) -> PqAnswer
    ensures { result ≡ bits_crossed (store_like (date_in date) (of_date_given kind date (λ k f. add_hours k f hours))) }
{
    added(kind, hour_count::HOUR, date, hours)
}

#[unsafe(no_mangle)]
pub extern "C" fn pq_hours_until(kind: u32, first: u32, second: u32) -> PqNumber
    ensures { result ≡ number_crossed (of_dates_given kind first second (λ k f g. hours_between k f g)) }
{
    between(kind, hour_count::HOUR, first, second)
}

#[unsafe(no_mangle)]
pub extern "C" fn pq_add_blocks(kind: u32, date: u32, blocks: i32) -> PqAnswer
    ensures { result ≡ bits_crossed (store_like (date_in date) (of_date_given kind date (λ k f. add_blocks k f blocks))) }
{
    added(kind, hour_count::SIX_HOURS, date, blocks)
}

#[unsafe(no_mangle)]
pub extern "C" fn pq_blocks_until(kind: u32, first: u32, second: u32) -> PqNumber
    ensures { result ≡ number_crossed (of_dates_given kind first second (λ k f g. blocks_between k f g)) }
{
    between(kind, hour_count::SIX_HOURS, first, second)
}
