// The functions below the kinds, and what each answers in one type, as the original's counts it.
ghost use Rattle.std.specs.Prelude.{◌≡◌, ◌-◌};
ghost use Rattle.replay.specs.Leaves.{leaf_told_as, leading_answer, digits_answer, month_day_answer, ordinal_answer, binary_answer};

use julian::MonthDay;
use scalar::Leading;

// What is told.
// Kept (point 1): (d) the answers of five functions in one type; an Option in a variant would be taken apart once more where it is told.
#[derive(Clone, Copy)]
pub(crate) enum LeafTold {
    Leading { value: i64, rest: usize },
    NoLeading,
    Digits(u64),
    NoDigits,
    MonthDay { month: u8, day: u8 },
    Unasked,
    Number(i32),
    NoMonth,
}

// The leading number of a text, and how many bytes follow it.
pub(crate) fn leading(text: &[u8]) -> LeafTold
    ensures { leaf_told_as result ≡ leading_answer text.now }
{
    let Some(Leading { value, next }) = scalar::to_i64_t(text) else {
        return LeafTold::NoLeading;
    };
    LeafTold::Leading {
        value,
        rest: text.len() - next,
    }
}

pub(crate) fn digits(word: u64) -> LeafTold
    ensures { leaf_told_as result ≡ digits_answer word }
{
    match util::fast_digit_parse(word) {
        Some(value) => LeafTold::Digits(value),
        None => LeafTold::NoDigits,
    }
}

pub(crate) fn month_day(day: u16) -> LeafTold
    ensures { leaf_told_as result ≡ month_day_answer day }
{
    if 365 <= day {
        return LeafTold::Unasked;
    }
    let MonthDay { month, day } = julian::month_day_from_julian(day);
    LeafTold::MonthDay { month, day }
}

// The original's count is one less than ours, since its days start at 1.
pub(crate) fn ordinal(month: u8) -> LeafTold
    ensures { leaf_told_as result ≡ ordinal_answer month }
{
    let Some(first) = julian::julian_ordinal_day(month) else {
        return LeafTold::NoMonth;
    };
    LeafTold::Number(sign::int::<i32>(first as u64, 1))
}

// The original takes the hour from 1 and lowers it, 0 excepted; ours takes it from 0.
pub(crate) fn binary(year: i16, day: u16, hour: u8) -> LeafTold
    ensures { leaf_told_as result ≡ binary_answer year day hour }
{
    LeafTold::Number(julian::to_binary(year, day, hour.saturating_sub(1)))
}
