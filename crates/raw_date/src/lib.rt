// The raw date (R): any month of 1 to 31 days, with an hour of 1 to 24 or none.
#![tactic(auto)]

ghost use Rattle.std.specs.Prelude.{refl};
ghost use Rattle.kinds.specs.declared.Kind.TheVariants.{Raw};
ghost use Rattle.raw_date.specs.Views.{bits};

use kinds::{Kind, Packed};
use pds_date::{FromYmdh, HasHour, PdsDate, ReadsNumbers};

#[derive(Clone, Copy)]
pub struct RawDate {
    pub raw: Packed,
}

impl RawDate {
    pub const LEAST: RawDate = RawDate {
        raw: Packed {
            year: -32768,
            word: 4224,
        },
    };

    pub const GREATEST: RawDate = RawDate {
        raw: Packed {
            year: 32767,
            word: 53216,
        },
    };
}

impl PdsDate for RawDate {
    ghost KIND = { Raw };

    const KIND: Kind = Kind::Raw;

    ghost bits = { bits };

    fn raw(self) -> Packed {
        self.raw
    }

    fn of_raw(raw: Packed) -> RawDate {
        RawDate { raw }
    }

    #[tactic(auto, unfolding(rules::specs::Kinds::packed, rules::specs::Kinds::least))]
    fn least() -> RawDate {
        RawDate::LEAST
    }

    #[tactic(auto, unfolding(rules::specs::Kinds::packed, rules::specs::Kinds::greatest))]
    fn greatest() -> RawDate {
        RawDate::GREATEST
    }
}

impl FromYmdh for RawDate {
    ghost carries_hour = { λ h. refl };
}

impl HasHour for RawDate {}

impl ReadsNumbers for RawDate {
    ghost reads = { refl };
}
