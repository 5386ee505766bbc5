// The operations of a league and two of version 1, told as `script::table_answers` has it.
ghost use Rattle.std.specs.Prelude.{◌≡◌};
ghost use Rattle.rules.specs.Refusals.{Gives, ◌then◌};
ghost use Rattle.requests.specs.FieldTable.{counted};
ghost use Rattle.requests.specs.Leagues.{moved_entries, moved_buffer};
ghost use Rattle.script.specs.TableAnswers.{Number, told_as};
ghost use Rattle.league_run.specs.Operations.{answer_of, buffer_of};

use league_table::moves;
use refusals::Refusal;
use script::table_answers;
use script::table_answers::Told;

#[derive(Clone, Copy)]
pub(crate) enum Operation {
    New,
    Check(u32),
    Entry {
        league: u32,
        place: usize,
    },
    Declare {
        league: u32,
        field: u32,
        code: u32,
    },
    Remove {
        league: u32,
        field: u32,
    },
    Lookup {
        league: u32,
        field: u32,
        game: u32,
        number: i32,
    },
    OldCheck,
    OldLookup {
        field: u32,
        game: u32,
        number: i32,
    },
}

pub(crate) fn operate(b: &mut [u8], operation: Operation) -> Result<Told, Refusal>
    ensures result_value { told_as result ≡ answer_of operation b.old }
    ensures b_after { b.new ≡ buffer_of operation b.old }
{
    match operation {
        Operation::New => table_answers::started(league_table::new(b)),
        Operation::Check(league) => table_answers::counted(league_table::check(b, league)),
        Operation::Entry { league, place } => {
            table_answers::found(league_table::entry_at(b, league, place))
        }
        Operation::Declare {
            league,
            field,
            code,
        } => table_answers::counted(league_table::declare(b, league, field, code)),
        Operation::Remove { league, field } => {
            table_answers::counted(league_table::remove(b, league, field))
        }
        Operation::Lookup {
            league,
            field,
            game,
            number,
        } => table_answers::looked(league_table::lookup(b, league, field, game, number)),
        Operation::OldCheck => table_answers::counted(field_table::check(b)),
        Operation::OldLookup {
            field,
            game,
            number,
        } => table_answers::looked(field_table::lookup(b, field, game, number)),
    }
}

// Moves a table of version 1 into a target.
pub(crate) fn move_table(from: &[u8], to: &mut [u8]) -> Result<Told, Refusal>
    ensures result_value { told_as result ≡ (counted (moved_entries from.now to.old) then λ n. Gives (Number n)) }
    ensures to_after { to.new ≡ moved_buffer from.now to.old }
{
    table_answers::counted(moves::from_table(from, to))
}
