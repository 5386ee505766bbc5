// The calendar's steps: month lengths, day of year to month and day and back, and the number that D and H write.
// A day of year counts from 0, as document 01 counts it: 1 January is 0. (The Rust's `julian_ordinal_day` is one less,
// -1 for January, for a day that starts at 1.)
#![tactic(auto)]

ghost use Rattle.std.specs.Prelude.{◌≡◌, ◌≤◌, ◌<◌};
ghost use Rattle.rules.specs.Calendar.{month_day, month_length, day_of_year};
ghost use Rattle.rules.specs.Numbers.{straight_at};
ghost use Rattle.julian.specs.First.{first_day_as, first_day_of};

use sign::Halves;

// The length of a month by its number, 1 to 12; 0 of what is no month. Everyone who needs a month's length asks here. It is worked out
// and no table is kept of it: the odd months are the long ones up to July, and from August on, where `month / 8` is 1, the even ones.
pub fn month_length(month: u8) -> u8
    ensures { result ≡ month_length month }
{
    match month {
        0 | 13.. => 0,
        2 => 28,
        _ => 30 + (month + month / 8) % 2,
    }
}

// A month from 1 and a day from 1.
#[derive(Clone, Copy)]
pub struct MonthDay {
    pub month: u8,
    pub day: u8,
}

// The month and the day of a day of year.
pub fn month_day_from_julian(day_of_year: u16) -> MonthDay
    requires { day_of_year < 365 }
    ensures { (result.month ≡ (month_day day_of_year).month) × (result.day ≡ (month_day day_of_year).day) }
{
    let entry = day_table::entry(day_of_year);
    MonthDay {
        month: (entry / 100) as u8,
        day: (entry % 100) as u8,
    }
}

// The day of year of a month's first day, or that there is no such month.
#[tactic(auto, unfolding(crate::specs::First::first_day_of, rules::specs::Calendar::first_day, rules::specs::Calendar::sum_first, rules::specs::Calendar::lengths))]
pub fn julian_ordinal_day(month: u8) -> Option<u16>
    ensures { first_day_as result ≡ first_day_of month }
{
    match month {
        1 => Some(0),
        2 => Some(31),
        3 => Some(59),
        4 => Some(90),
        5 => Some(120),
        6 => Some(151),
        7 => Some(181),
        8 => Some(212),
        9 => Some(243),
        10 => Some(273),
        11 => Some(304),
        12 => Some(334),
        _ => None,
    }
}

// The day of year of a day of a month.
pub fn day_of_year(month: u8, day: u8) -> u16
    requires { (1 ≤ month) × (month ≤ 12) × (1 ≤ day) × (day ≤ month_length month) }
    ensures { (result ≡ day_of_year month day) × (result < 365) }
{
    let first = julian_ordinal_day(month).unwrap();
    first + u16::from(day) - 1
}

// ((year + 5000) × 365 + day of year) × 24 + hour, the hour from 0. It fits for every year, every 16-bit day of year and
// every 8-bit hour, so nothing is required of them.
pub fn to_binary(year: i16, day_of_year: u16, hour: u8) -> i32
    ensures { result ≡ straight_at year day_of_year hour }
{
    let Halves { up, dn } = sign::halved(year);
    let above = ((up + 5000) * 365 + u64::from(day_of_year)) * 24 + u64::from(hour);
    sign::int::<i32>(above, dn * 8760)
}
