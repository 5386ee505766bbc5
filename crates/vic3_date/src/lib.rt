// Victoria 3's date (V): a day of the calendar, at hour 0, 6, 12 or 18.
#![tactic(auto)]

ghost use Rattle.std.specs.Prelude.{◌≡◌, refl};
ghost use Rattle.rules.specs.Kinds.{kV, store_like, of_date, of_dates};
ghost use Rattle.requests.specs.Hours.{add_blocks, blocks_between};
ghost use Rattle.hour_count.specs.Views.{counted_as};
ghost use Rattle.kinds.specs.declared.Kind.TheVariants.{Vic3};
ghost use Rattle.vic3_date.specs.Views.{bits, summed_as};

use kinds::{Kind, Packed};
use pds_date::{CountsDays, FromYmdh, HasGuess, HasHour, PdsDate, ReadsNumbers};
use refusals::Refusal;

#[derive(Clone, Copy)]
pub struct Vic3Date {
    pub raw: Packed,
}

impl Vic3Date {
    pub const LEAST: Vic3Date = Vic3Date {
        raw: Packed {
            year: -32768,
            word: 4224,
        },
    };

    pub const GREATEST: Vic3Date = Vic3Date {
        raw: Packed {
            year: 32767,
            word: 53192,
        },
    };

    // Kept (point 2): (a) H's hours and V's blocks have names of their own in document 01 and at the C boundary; the one function of both is
    // `hour_count::add`, and `until` of the next.
    // A new date, moved by blocks of six hours, with the mark of the old one, which stays.
    pub fn add_blocks(self, blocks: i32) -> Result<Vic3Date, Refusal>
        ensures { summed_as result ≡ store_like (bits self) (of_date kV (bits self) (λ f. add_blocks kV f blocks)) }
    {
        let raw = hour_count::add(Kind::Vic3, hour_count::SIX_HOURS, self.raw, blocks)?;
        Ok(Vic3Date { raw })
    }

    pub fn blocks_until(self, other: Vic3Date) -> Option<i32>
        ensures { counted_as result ≡ of_dates kV (bits self) (bits other) (λ f g. blocks_between kV f g) }
    {
        hour_count::until(Kind::Vic3, hour_count::SIX_HOURS, self.raw, other.raw)
    }
}

impl PdsDate for Vic3Date {
    ghost KIND = { Vic3 };

    const KIND: Kind = Kind::Vic3;

    ghost bits = { bits };

    fn raw(self) -> Packed {
        self.raw
    }

    fn of_raw(raw: Packed) -> Vic3Date {
        Vic3Date { raw }
    }

    #[tactic(auto, unfolding(rules::specs::Kinds::packed, rules::specs::Kinds::least))]
    fn least() -> Vic3Date {
        Vic3Date::LEAST
    }

    #[tactic(auto, unfolding(rules::specs::Kinds::packed, rules::specs::Kinds::greatest, rules::specs::Calendar::lengths, rules::specs::Calendar::month_length))]
    fn greatest() -> Vic3Date {
        Vic3Date::GREATEST
    }
}

impl CountsDays for Vic3Date {
    ghost counts = { refl };
}

impl FromYmdh for Vic3Date {
    ghost carries_hour = { λ h. refl };
}

impl HasGuess for Vic3Date {
    ghost has_guess = { refl };
}

impl HasHour for Vic3Date {}

impl ReadsNumbers for Vic3Date {
    ghost reads = { refl };
}
