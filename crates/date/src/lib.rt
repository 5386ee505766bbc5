// The plain date (D): a day of the calendar, without an hour. Its fast path is the crate `fast_date`.
#![tactic(auto)]

ghost use Rattle.std.specs.Prelude.{refl};
ghost use Rattle.kinds.specs.declared.Kind.TheVariants.{Date as Plain};
ghost use Rattle.date.specs.Views.{bits};

use kinds::{Kind, Packed};
use pds_date::{CountsDays, FromYmd, HasGuess, HasHour, PdsDate, ReadsNumbers, WritesNumbers};
use refusals::Refusal;

#[derive(Clone, Copy)]
pub struct Date {
    pub raw: Packed,
}

impl Date {
    pub const LEAST: Date = Date {
        raw: Packed {
            year: -32768,
            word: 4224,
        },
    };

    pub const GREATEST: Date = Date {
        raw: Packed {
            year: 32767,
            word: 53120,
        },
    };
}

impl PdsDate for Date {
    ghost KIND = { Plain };

    const KIND: Kind = Kind::Date;

    ghost bits = { bits };

    fn raw(self) -> Packed {
        self.raw
    }

    fn of_raw(raw: Packed) -> Date {
        Date { raw }
    }

    #[tactic(auto, unfolding(rules::specs::Kinds::packed, rules::specs::Kinds::least))]
    fn least() -> Date {
        Date::LEAST
    }

    #[tactic(auto, unfolding(rules::specs::Kinds::packed, rules::specs::Kinds::greatest, rules::specs::Calendar::lengths, rules::specs::Calendar::month_length))]
    fn greatest() -> Date {
        Date::GREATEST
    }

    // The fast path, where it answers.
    fn parse(s: &[u8]) -> Result<Date, Refusal> {
        match fast_date::fast_parse(s) {
            Some(Some(raw)) => Ok(Date { raw }),
            Some(None) => Err(Refusal::NotText),
            None => Date::plain(s),
        }
    }
}

impl CountsDays for Date {
    ghost counts = { refl };
}

impl FromYmd for Date {
    ghost carries_no_hour = { λ h. refl };
}

impl HasGuess for Date {
    ghost has_guess = { refl };
}

impl HasHour for Date {}

impl ReadsNumbers for Date {
    ghost reads = { refl };
}

impl WritesNumbers for Date {
    ghost writes = { refl };
}
