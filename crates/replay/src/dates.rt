// A date of a kind that is given as a value: its fields by the kind's own accessors, its texts by the kind's own methods.
ghost use Rattle.std.specs.Prelude.{◌≡◌, ◌≤◌, length};
ghost use Rattle.rules.specs.Refusals.{Gives};
ghost use Rattle.rules.specs.Kinds.{unpacked, of_date};
ghost use Rattle.rules.specs.Spelling.{dotted, iso, exchange, put_answer, put_buffer};
ghost use Rattle.kinds.specs.Views.{kind_of, fields_of, bits_of};
ghost use Rattle.formatter.specs.Views.{spelled_as, length_of};

use date::Date;
use date_hour::DateHour;
use eu5_date::Eu5Date;
use kinds::{ExpandedRawDate, Kind, Packed};
use pds_date::{HasHour, PdsDate};
use raw_date::RawDate;
use refusals::Refusal;
use uniform_date::UniformDate;
use vic3_date::Vic3Date;

fn seen<D: HasHour>(date: D) -> ExpandedRawDate
    ensures { fields_of result ≡ unpacked (D.bits date) }
{
    ExpandedRawDate {
        year: date.year(),
        month: date.month(),
        day: date.day(),
        hour: date.hour(),
    }
}

// The stored hour of E is its component.
fn seen_of_eu5(date: Eu5Date) -> ExpandedRawDate
    ensures { fields_of result ≡ unpacked (bits_of date.raw) }
{
    ExpandedRawDate {
        year: date.year(),
        month: date.month(),
        day: date.day(),
        hour: date.component(),
    }
}

// Kept (point 2): (d) an arm calls a method at a type of its own, which is what is compared; no closure is generic over a type.
pub(crate) fn shown(kind: Kind, raw: Packed) -> ExpandedRawDate
    ensures { fields_of result ≡ unpacked (bits_of raw) }
{
    match kind {
        Kind::Raw => seen(RawDate { raw }),
        Kind::Date => seen(Date { raw }),
        Kind::Hour => seen(DateHour { raw }),
        Kind::Uniform => seen(UniformDate { raw }),
        Kind::Eu5 => seen_of_eu5(Eu5Date { raw }),
        Kind::Vic3 => seen(Vic3Date { raw }),
    }
}

pub(crate) fn game_fmt(kind: Kind, raw: Packed, out: &mut [u8]) -> Result<usize, Refusal>
    ensures result_value { spelled_as result ≡ put_answer (of_date (kind_of kind) (bits_of raw) (λ f. Gives (dotted (kind_of kind) f))) out.old }
    ensures out_after { out.new ≡ put_buffer (of_date (kind_of kind) (bits_of raw) (λ f. Gives (dotted (kind_of kind) f))) out.old }
    ensures result_in_bounds { length_of result ≤ length out.old }
{
    match kind {
        Kind::Raw => RawDate { raw }.game_fmt(out),
        Kind::Date => Date { raw }.game_fmt(out),
        Kind::Hour => DateHour { raw }.game_fmt(out),
        Kind::Uniform => UniformDate { raw }.game_fmt(out),
        Kind::Eu5 => Eu5Date { raw }.game_fmt(out),
        Kind::Vic3 => Vic3Date { raw }.game_fmt(out),
    }
}

pub(crate) fn iso_8601(kind: Kind, raw: Packed, out: &mut [u8]) -> Result<usize, Refusal>
    ensures result_value { spelled_as result ≡ put_answer (of_date (kind_of kind) (bits_of raw) (λ f. Gives (iso (kind_of kind) f))) out.old }
    ensures out_after { out.new ≡ put_buffer (of_date (kind_of kind) (bits_of raw) (λ f. Gives (iso (kind_of kind) f))) out.old }
    ensures result_in_bounds { length_of result ≤ length out.old }
{
    match kind {
        Kind::Raw => RawDate { raw }.iso_8601(out),
        Kind::Date => Date { raw }.iso_8601(out),
        Kind::Hour => DateHour { raw }.iso_8601(out),
        Kind::Uniform => UniformDate { raw }.iso_8601(out),
        Kind::Eu5 => Eu5Date { raw }.iso_8601(out),
        Kind::Vic3 => Vic3Date { raw }.iso_8601(out),
    }
}

pub(crate) fn exchange(kind: Kind, raw: Packed, out: &mut [u8]) -> Result<usize, Refusal>
    ensures result_value { spelled_as result ≡ put_answer (of_date (kind_of kind) (bits_of raw) (λ f. Gives (exchange (kind_of kind) f))) out.old }
    ensures out_after { out.new ≡ put_buffer (of_date (kind_of kind) (bits_of raw) (λ f. Gives (exchange (kind_of kind) f))) out.old }
    ensures result_in_bounds { length_of result ≤ length out.old }
{
    match kind {
        Kind::Raw => RawDate { raw }.exchange(out),
        Kind::Date => Date { raw }.exchange(out),
        Kind::Hour => DateHour { raw }.exchange(out),
        Kind::Uniform => UniformDate { raw }.exchange(out),
        Kind::Eu5 => Eu5Date { raw }.exchange(out),
        Kind::Vic3 => Vic3Date { raw }.exchange(out),
    }
}
