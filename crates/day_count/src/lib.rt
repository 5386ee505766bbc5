// Days counted: a date moved by days, the days from one date to another, and the start of a date's day, over the kind.
// Each date handed in goes through `unpack` first; a kind that lacks the operation answers as for a date not its own.
// A day number is kept as its two halves: 365 × year ± day of year, the day going away from year 0 on both sides.
#![tactic(auto)]

ghost use Rattle.std.specs.Prelude.{◌≡◌, ◌-◌, ◌≤◌, ◌<◌, ℤ, ◌+ℤ◌, ◌-ℤ◌};
ghost use Rattle.std.proofs.Math.IntN.{sub_ℕ};
ghost use Rattle.sign.specs.Halves.{Halved};
ghost use Rattle.rules.specs.Kinds.{Fields, stored_with, store_with, store_like, of_date, of_dates};
ghost use Rattle.rules.specs.Days.{day_number_at, day_number, counts_days, difference, day_fields, date_within, summed, summed_hour, add_days, has_start, start_of_day};
ghost use Rattle.kinds.specs.Views.{kind_of, fields_of, bits_of};
ghost use Rattle.day_count.specs.Views.{summed_as, judged_as, counted_as, start_as, OnCalendar};

use kinds::{ExpandedRawDate, Kind, Packed};
use refusals::Refusal;
use sign::Halves;

// D, V and E count days.
pub fn counts_days(kind: Kind) -> bool
    ensures { result ≡ counts_days (kind_of kind) }
{
    match kind {
        Kind::Date | Kind::Eu5 | Kind::Vic3 => true,
        Kind::Raw | Kind::Hour | Kind::Uniform => false,
    }
}

// E alone has a start of day.
fn has_start(kind: Kind) -> bool
    ensures { result ≡ has_start (kind_of kind) }
{
    match kind {
        Kind::Eu5 => true,
        Kind::Raw | Kind::Date | Kind::Hour | Kind::Uniform | Kind::Vic3 => false,
    }
}

// The hour of a sum: V keeps its own.
fn summed_hour(kind: Kind, hour: u8) -> u8
    ensures { result ≡ summed_hour (kind_of kind) hour }
{
    match kind {
        Kind::Vic3 => hour,
        Kind::Raw | Kind::Date | Kind::Hour | Kind::Uniform | Kind::Eu5 => 0,
    }
}

// The day number of a year and a day of year.
fn day_number(year: i16, doy: u16) -> Halves
    requires { doy < 365 }
    ensures { Halved 11960683 (day_number_at year doy) result.up result.dn }
{
    let h = sign::halved(year);
    let u = h.up;
    let d = h.dn;
    let e = doy as u64;
    if 0 < d {
        Halves {
            up: 0,
            dn: 365 * d + e,
        }
    } else {
        Halves {
            up: 365 * u + e,
            dn: 0,
        }
    }
}

// The day number of a date.
fn number_of(date: ExpandedRawDate) -> Halves
    requires { OnCalendar date }
    ensures { Halved 11960683 (day_number (fields_of date)) result.up result.dn }
{
    let doy = julian::day_of_year(date.month, date.day);
    day_number(date.year, doy)
}

// The date of a number in range, with this hour and this mark.
fn date_of(up: u64, dn: u64, hour: u8, mark: u16) -> Packed
    requires { (up - dn ≡ up) × (up ≤ 11960319) × (dn ≤ 11960684) × (hour < 32) × (mark < 4) }
    ensures { bits_of result ≡ stored_with mark (day_fields (sub_ℕ up dn) hour) }
{
    let year = sign::int::<i16>(up / 365, dn / 365);
    let doy = ((up + dn) % 365) as u16;
    let on = julian::month_day_from_julian(doy);
    let fields = ExpandedRawDate {
        year,
        month: on.month,
        day: on.day,
        hour,
    };
    kinds::pack(mark, fields)
}

// What a sum is, whatever it counts: whether the number up - dn lies in the range from -low to high, outside it, or outside 32 bits.
// The range is narrower than 32 bits, so that one in range is found after two tests.
// Kept (point 5): (d) `up` and `dn` are any two naturals here, no `Halves` of which one is 0; a second struct would be made for a call.
pub fn judge(up: u64, dn: u64, low: u64, high: u64) -> Result<(), Refusal>
    requires { (up ≤ 68719476736) × (dn ≤ 68719476736) × (low ≤ 2147483648) × (high ≤ 2147483647) }
    ensures { (date : ℤ → Fields) → judged_as result date (sub_ℕ up dn) ≡ date_within low high date (sub_ℕ up dn) }
{
    if up + low < dn {
        if up + 2147483648 < dn {
            return Err(Refusal::SumOverflows);
        }
        return Err(Refusal::OutOfRange);
    }
    if dn + high < up {
        if dn + 2147483647 < up {
            return Err(Refusal::SumOverflows);
        }
        return Err(Refusal::OutOfRange);
    }
    Ok(())
}

// The date of the number up - dn, with this hour and this mark, or why there is none.
fn date_at(up: u64, dn: u64, hour: u8, mark: u16) -> Result<Packed, Refusal>
    requires { (up ≤ 4294967296) × (dn ≤ 4294967296) × (hour < 32) × (mark < 4) }
    ensures { summed_as result ≡ store_with mark (summed (sub_ℕ up dn) hour) }
{
    judge(up, dn, 11960684, 11960319)?;
    if up < dn {
        return Ok(date_of(0, dn - up, hour, mark));
    }
    Ok(date_of(up - dn, 0, hour, mark))
}

// A date moved by days, with this hour and this mark.
fn moved(date: ExpandedRawDate, days: i32, hour: u8, mark: u16) -> Result<Packed, Refusal>
    requires { OnCalendar date × (hour < 32) × (mark < 4) }
    ensures { summed_as result ≡ store_with mark (summed (day_number (fields_of date) +ℤ days) hour) }
{
    let n = number_of(date);
    let nu = n.up;
    let nd = n.dn;
    let m = sign::halved(days);
    let mu = m.up;
    let md = m.dn;
    date_at(nu + mu, nd + md, hour, mark)
}

// A date moved by days: its number and the days summed. Past 32 bits the sum overflows; outside the years it is out of range. The sum
// keeps the mark of the date that it starts from.
pub fn add_days(kind: Kind, date: Packed, days: i32) -> Result<Packed, Refusal>
    ensures { summed_as result ≡ store_like (bits_of date) (of_date (kind_of kind) (bits_of date) (λ f. add_days (kind_of kind) f days)) }
{
    if counts_days(kind) {
        let fields = kinds::unpack(kind, date).ok_or(Refusal::NotOfKind)?;
        let hour = summed_hour(kind, fields.hour);
        return moved(fields, days, hour, kinds::mark_of(date));
    }
    Err(Refusal::NotOfKind)
}

// The number of the second date less that of the first.
fn between(first: ExpandedRawDate, second: ExpandedRawDate) -> i32
    requires { OnCalendar first × OnCalendar second }
    ensures { result ≡ day_number (fields_of second) -ℤ day_number (fields_of first) }
{
    let n = number_of(first);
    let nu = n.up;
    let nd = n.dn;
    let m = number_of(second);
    let mu = m.up;
    let md = m.dn;
    sign::int::<i32>(mu + nd, md + nu)
}

// The days from the first date to the second, whatever their hours.
pub fn days_until(kind: Kind, first: Packed, second: Packed) -> Option<i32>
    ensures { counted_as result ≡ of_dates (kind_of kind) (bits_of first) (bits_of second) (λ f g. difference (kind_of kind) f g) }
{
    if counts_days(kind) {
        let from = kinds::unpack(kind, first)?;
        let to = kinds::unpack(kind, second)?;
        return Some(between(from, to));
    }
    None
}

// The same date with hour 0, and the same mark.
pub fn start_of_day(kind: Kind, date: Packed) -> Option<Packed>
    ensures { start_as result ≡ store_like (bits_of date) (of_date (kind_of kind) (bits_of date) (λ f. start_of_day (kind_of kind) f)) }
{
    if has_start(kind) {
        let fields = kinds::unpack(kind, date)?;
        let start = ExpandedRawDate { hour: 0, ..fields };
        return Some(kinds::pack(kinds::mark_of(date), start));
    }
    None
}
