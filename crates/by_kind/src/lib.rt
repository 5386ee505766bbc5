// A text read as a date of any kind: the reader is the kind's own.
#![tactic(auto)]

ghost use Rattle.std.specs.Prelude.{◌≡◌};
ghost use Rattle.rules.specs.Kinds.{store};
ghost use Rattle.rules.specs.Text.{read_text};
ghost use Rattle.requests.specs.IsoReader.{read_iso};
ghost use Rattle.kinds.specs.Views.{kind_of};
ghost use Rattle.pds_date.specs.Views.{parsed_as as read_as};
ghost use Rattle.by_kind.specs.Views.{parsed_as};

use date::Date;
use date_hour::DateHour;
use eu5_date::Eu5Date;
use kinds::{Kind, Packed};
use pds_date::PdsDate;
use raw_date::RawDate;
use refusals::Refusal;
use uniform_date::UniformDate;
use vic3_date::Vic3Date;

// What a kind's reader answers, as an answer of any kind.
fn raw<D: PdsDate>(read: Result<D, Refusal>) -> Result<Packed, Refusal>
    ensures { parsed_as result ≡ read_as D.bits read }
{
    let date = read?;
    Ok(date.raw())
}

// Kept (point 2): (d) the two matches differ in the method that an arm calls at a type of its own, and no closure is generic over a type.
pub fn parse(kind: Kind, s: &[u8]) -> Result<Packed, Refusal>
    ensures { parsed_as result ≡ store (read_text (kind_of kind) s.now) }
{
    match kind {
        Kind::Raw => raw(RawDate::parse(s)),
        Kind::Date => raw(Date::parse(s)),
        Kind::Hour => raw(DateHour::parse(s)),
        Kind::Uniform => raw(UniformDate::parse(s)),
        Kind::Eu5 => raw(Eu5Date::parse(s)),
        Kind::Vic3 => raw(Vic3Date::parse(s)),
    }
}

pub fn parse_iso(kind: Kind, s: &[u8]) -> Result<Packed, Refusal>
    ensures { parsed_as result ≡ store (read_iso (kind_of kind) s.now) }
{
    match kind {
        Kind::Raw => raw(RawDate::parse_iso(s)),
        Kind::Date => raw(Date::parse_iso(s)),
        Kind::Hour => raw(DateHour::parse_iso(s)),
        Kind::Uniform => raw(UniformDate::parse_iso(s)),
        Kind::Eu5 => raw(Eu5Date::parse_iso(s)),
        Kind::Vic3 => raw(Vic3Date::parse_iso(s)),
    }
}
