// Hours counted: a date of H moved by hours, and the hours from one to another; the same of V in blocks of six hours. Over the kind and
// the hours of a block. Each date handed in goes through `unpack` first; a kind that does not count in such blocks answers as for a date
// not its own. The count is on the number that H writes, which runs straight through every year.
#![tactic(auto)]

ghost use Rattle.std.specs.Prelude.{◌≡◌, ◌≤◌, ◌<◌, ◌+ℤ◌, ◌-ℤ◌, ◌*ℤ◌, pos};
ghost use Rattle.std.proofs.Math.IntN.{sub_ℕ};
ghost use Rattle.std.specs.Int.Signed.{quot_z};
ghost use Rattle.sign.specs.Halves.{Halved};
ghost use Rattle.rules.specs.Kinds.{least_hour, stored_with, store_with, store_like, of_date, of_dates};
ghost use Rattle.requests.specs.Hours.{counts_in, hour_number, hours_after, hour_summed, count_between, add_count};
ghost use Rattle.kinds.specs.Views.{kind_of, fields_of, bits_of};
ghost use Rattle.day_count.specs.Views.{summed_as};
ghost use Rattle.hour_count.specs.Views.{counted_as, OnHour};

use kinds::{ExpandedRawDate, Kind, Packed};
use refusals::Refusal;
use sign::Halves;

// The hours of a block: H counts single hours, V blocks of six.
pub const HOUR: u64 = 1;

pub const SIX_HOURS: u64 = 6;

// Whether the kind counts in blocks of so many hours.
fn counts_in(block: u64, kind: Kind) -> bool
    ensures { result ≡ counts_in block (kind_of kind) }
{
    match kind {
        Kind::Hour => block == HOUR,
        Kind::Vic3 => block == SIX_HOURS,
        Kind::Raw | Kind::Date | Kind::Uniform | Kind::Eu5 => false,
    }
}

// The first hour of a day: H's hours run from 1.
fn first_hour(kind: Kind) -> u8
    ensures { result ≡ least_hour (kind_of kind) }
{
    match kind {
        Kind::Hour => 1,
        Kind::Raw | Kind::Date | Kind::Uniform | Kind::Eu5 | Kind::Vic3 => 0,
    }
}

// The number of a date, in hours: the one that H writes, and of V its date's with its hour.
fn number_of(kind: Kind, date: ExpandedRawDate) -> Halves
    requires { OnHour (kind_of kind) date }
    ensures { Halved 330847679 (hour_number (kind_of kind) (fields_of date)) result.up result.dn }
{
    let doy = julian::day_of_year(date.month, date.day);
    let hour = date.hour - first_hour(kind);
    sign::halved(julian::to_binary(date.year, doy, hour))
}

// The date so many hours after the first hour of year -32768, with this mark.
fn date_after(kind: Kind, hours: u64, mark: u16) -> Packed
    requires { (hours ≤ 574095359) × (mark < 4) }
    ensures { bits_of result ≡ stored_with mark (hours_after (kind_of kind) hours) }
{
    let year = sign::int::<i16>(hours / 8760, 32768);
    let on = julian::month_day_from_julian((hours / 24 % 365) as u16);
    let fields = ExpandedRawDate {
        year,
        month: on.month,
        day: on.day,
        hour: (hours % 24) as u8 + first_hour(kind),
    };
    kinds::pack(mark, fields)
}

// The date of the number up - dn, with this mark, or why there is none.
fn date_at(kind: Kind, up: u64, dn: u64, mark: u16) -> Result<Packed, Refusal>
    requires { (up ≤ 68719476736) × (dn ≤ 68719476736) × (mark < 4) }
    ensures { summed_as result ≡ store_with mark (hour_summed (kind_of kind) (sub_ℕ up dn)) }
{
    day_count::judge(up, dn, 243247680, 330847679)?;
    Ok(date_after(kind, up + 243247680 - dn, mark))
}

// A date moved by so many blocks, with this mark. The sum is in hours.
fn moved(
    kind: Kind,
    block: u64,
    date: ExpandedRawDate,
    count: i32,
    mark: u16,
) -> Result<Packed, Refusal>
    requires { OnHour (kind_of kind) date × (block ≤ 24) × (mark < 4) }
    ensures { summed_as result ≡ store_with mark (hour_summed (kind_of kind) (hour_number (kind_of kind) (fields_of date) +ℤ pos block *ℤ count)) }
{
    let n = number_of(kind, date);
    let m = sign::halved(count);
    date_at(kind, n.up + block * m.up, n.dn + block * m.dn, mark)
}

// A date moved by so many blocks of so many hours. Past 32 bits the sum of hours overflows; outside the years it is out of range. The
// sum keeps the mark of the date that it starts from.
pub fn add(kind: Kind, block: u64, date: Packed, count: i32) -> Result<Packed, Refusal>
    ensures { summed_as result ≡ store_like (bits_of date) (of_date (kind_of kind) (bits_of date) (λ f. add_count block (kind_of kind) f count)) }
{
    if counts_in(block, kind) {
        let fields = kinds::unpack(kind, date).ok_or(Refusal::NotOfKind)?;
        return moved(kind, block, fields, count, kinds::mark_of(date));
    }
    Err(Refusal::NotOfKind)
}

// The number of the second date less that of the first, in blocks.
fn between(kind: Kind, block: u64, first: ExpandedRawDate, second: ExpandedRawDate) -> i32
    requires { OnHour (kind_of kind) first × OnHour (kind_of kind) second × (0 < block) }
    ensures { result ≡ quot_z (hour_number (kind_of kind) (fields_of second) -ℤ hour_number (kind_of kind) (fields_of first)) (pos block) }
{
    let n = number_of(kind, first);
    let nu = n.up;
    let nd = n.dn;
    let m = number_of(kind, second);
    let mu = m.up;
    let md = m.dn;
    let up = mu + nd;
    let dn = md + nu;
    if up < dn {
        sign::int::<i32>(0, (dn - up) / block)
    } else {
        sign::int::<i32>((up - dn) / block, 0)
    }
}

// The blocks of so many hours from the first date to the second.
pub fn until(kind: Kind, block: u64, first: Packed, second: Packed) -> Option<i32>
    ensures { counted_as result ≡ of_dates (kind_of kind) (bits_of first) (bits_of second) (λ f g. count_between block (kind_of kind) f g) }
{
    if counts_in(block, kind) {
        let from = kinds::unpack(kind, first)?;
        let to = kinds::unpack(kind, second)?;
        return Some(between(kind, block, from, to));
    }
    None
}
