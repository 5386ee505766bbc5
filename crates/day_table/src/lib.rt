// The table of 365 entries from day of year to month and day: a static, so that an entry is one load from constant memory.
#![tactic(auto)]

ghost use Rattle.std.specs.Prelude.{◌≡◌, ◌+◌, ◌*◌, ◌<◌};
ghost use Rattle.rules.specs.Calendar.{month_day};

mod table;

// The entry of a day of year: its month times 100, plus its day.
pub fn entry(day_of_year: u16) -> u16
    requires { day_of_year < 365 }
    ensures { result ≡ (month_day day_of_year).month * 100 + (month_day day_of_year).day }
{
    table::MONTH_DAYS[usize::from(day_of_year)]
}
