// A date's mark, by the kinds' own methods: whether the date was guessed, and the date without its mark.
ghost use Rattle.std.specs.Prelude.{◌≡◌};
ghost use Rattle.rules.specs.Kinds.{is_guessed};
ghost use Rattle.kinds.specs.Views.{kind_of, bits_of};
ghost use Rattle.replay.specs.Answers.{told_as, unmarked_answer};

use crate::answers;
use crate::answers::Told;
use date::Date;
use date_hour::DateHour;
use eu5_date::Eu5Date;
use kinds::{Kind, Packed};
use pds_date::PdsDate;
use raw_date::RawDate;
use refusals::Refusal;
use uniform_date::UniformDate;
use vic3_date::Vic3Date;

// Kept (point 2): (d) an arm calls a method at a type of its own, which is what is compared; no closure is generic over a type.
pub(crate) fn is_guessed(kind: Kind, raw: Packed) -> bool
    ensures { result ≡ is_guessed (bits_of raw) }
{
    match kind {
        Kind::Raw => RawDate { raw }.is_guessed(),
        Kind::Date => Date { raw }.is_guessed(),
        Kind::Hour => DateHour { raw }.is_guessed(),
        Kind::Uniform => UniformDate { raw }.is_guessed(),
        Kind::Eu5 => Eu5Date { raw }.is_guessed(),
        Kind::Vic3 => Vic3Date { raw }.is_guessed(),
    }
}

pub(crate) fn without_mark(kind: Kind, raw: Packed) -> Result<Told, Refusal>
    ensures { told_as result ≡ unmarked_answer (kind_of kind) raw }
{
    match kind {
        Kind::Raw => answers::made(RawDate { raw }.without_mark()),
        Kind::Date => answers::made(Date { raw }.without_mark()),
        Kind::Hour => answers::made(DateHour { raw }.without_mark()),
        Kind::Uniform => answers::made(UniformDate { raw }.without_mark()),
        Kind::Eu5 => answers::made(Eu5Date { raw }.without_mark()),
        Kind::Vic3 => answers::made(Vic3Date { raw }.without_mark()),
    }
}
