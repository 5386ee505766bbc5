// The uniform date (U): twelve months of 30 days, without an hour.
#![tactic(auto)]

ghost use Rattle.std.specs.Prelude.{refl};
ghost use Rattle.kinds.specs.declared.Kind.TheVariants.{Uniform};
ghost use Rattle.uniform_date.specs.Views.{bits};

use kinds::{Kind, Packed};
use pds_date::{FromYmd, HasHour, PdsDate};

#[derive(Clone, Copy)]
pub struct UniformDate {
    pub raw: Packed,
}

impl UniformDate {
    pub const LEAST: UniformDate = UniformDate {
        raw: Packed {
            year: -32768,
            word: 4224,
        },
    };

    pub const GREATEST: UniformDate = UniformDate {
        raw: Packed {
            year: 32767,
            word: 52992,
        },
    };
}

impl PdsDate for UniformDate {
    ghost KIND = { Uniform };

    const KIND: Kind = Kind::Uniform;

    ghost bits = { bits };

    fn raw(self) -> Packed {
        self.raw
    }

    fn of_raw(raw: Packed) -> UniformDate {
        UniformDate { raw }
    }

    #[tactic(auto, unfolding(rules::specs::Kinds::packed, rules::specs::Kinds::least))]
    fn least() -> UniformDate {
        UniformDate::LEAST
    }

    #[tactic(auto, unfolding(rules::specs::Kinds::packed, rules::specs::Kinds::greatest))]
    fn greatest() -> UniformDate {
        UniformDate::GREATEST
    }
}

impl FromYmd for UniformDate {
    ghost carries_no_hour = { λ h. refl };
}

impl HasHour for UniformDate {}
