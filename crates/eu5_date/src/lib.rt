// EU5's date (E): a day of the calendar, with an hour component of 0 to 22.
#![tactic(auto)]

ghost use Rattle.std.specs.Prelude.{◌≡◌, ◌≤◌, length, refl};
ghost use Rattle.rules.specs.Refusals.{Gives};
ghost use Rattle.rules.specs.Kinds.{kE, in_game_hour, unpacked, store_like, of_date};
ghost use Rattle.rules.specs.Days.{start_of_day};
ghost use Rattle.rules.specs.Spelling.{iso_date_alone, put_answer, put_buffer};
ghost use Rattle.formatter.specs.Views.{spelled_as, length_of};
ghost use Rattle.kinds.specs.declared.Kind.TheVariants.{Eu5};
ghost use Rattle.eu5_date.specs.Views.{bits, started_as, in_game_as};

use kinds::{Kind, Packed};
use pds_date::{CountsDays, FromYmd, HasGuess, PdsDate, ReadsNumbers};
use refusals::Refusal;

#[derive(Clone, Copy)]
pub struct Eu5Date {
    pub raw: Packed,
}

impl Eu5Date {
    pub const LEAST: Eu5Date = Eu5Date {
        raw: Packed {
            year: -32768,
            word: 4224,
        },
    };

    pub const GREATEST: Eu5Date = Eu5Date {
        raw: Packed {
            year: 32767,
            word: 53208,
        },
    };

    // The hour component as it is stored: 0 for 08:00, 2 for 09:00, to 22 for 19:00.
    pub fn component(self) -> u8
        ensures { result ≡ (unpacked (bits self)).hour }
    {
        kinds::hour_of(self.raw)
    }

    // The in-game hour, 8 to 19, as jomini's `hour` gives it.
    pub fn hour(self) -> Option<u8>
        ensures { in_game_as result ≡ of_date kE (bits self) (λ f. Gives (in_game_hour f.hour)) }
    {
        let fields = kinds::unpack(Kind::Eu5, self.raw)?;
        Some(fields.hour / 2 + 8)
    }

    // The same date at 08:00, with its mark.
    pub fn start_of_day(self) -> Option<Eu5Date>
        ensures { started_as result ≡ store_like (bits self) (of_date kE (bits self) (λ f. start_of_day kE f)) }
    {
        let raw = day_count::start_of_day(Kind::Eu5, self.raw)?;
        Some(Eu5Date { raw })
    }

    // The ISO date alone.
    pub fn date_fmt(self, out: &mut [u8]) -> Result<usize, Refusal>
        ensures result_value { spelled_as result ≡ put_answer (of_date kE (bits self) (λ f. iso_date_alone kE f)) out.old }
        ensures out_after { out.new ≡ put_buffer (of_date kE (bits self) (λ f. iso_date_alone kE f)) out.old }
        ensures result_in_bounds { length_of result ≤ length out.old }
    {
        formatter::date_fmt(Kind::Eu5, self.raw, out)
    }
}

impl PdsDate for Eu5Date {
    ghost KIND = { Eu5 };

    const KIND: Kind = Kind::Eu5;

    ghost bits = { bits };

    fn raw(self) -> Packed {
        self.raw
    }

    fn of_raw(raw: Packed) -> Eu5Date {
        Eu5Date { raw }
    }

    #[tactic(auto, unfolding(rules::specs::Kinds::packed, rules::specs::Kinds::least))]
    fn least() -> Eu5Date {
        Eu5Date::LEAST
    }

    #[tactic(auto, unfolding(rules::specs::Kinds::packed, rules::specs::Kinds::greatest, rules::specs::Calendar::lengths, rules::specs::Calendar::month_length))]
    fn greatest() -> Eu5Date {
        Eu5Date::GREATEST
    }
}

impl CountsDays for Eu5Date {
    ghost counts = { refl };
}

impl FromYmd for Eu5Date {
    ghost carries_no_hour = { λ h. refl };
}

impl HasGuess for Eu5Date {
    ghost has_guess = { refl };
}

impl ReadsNumbers for Eu5Date {
    ghost reads = { refl };
}
