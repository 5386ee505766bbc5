// The table's operations, told as `script::table_answers` has it.
ghost use Rattle.std.specs.Prelude.{◌≡◌};
ghost use Rattle.script.specs.TableAnswers.{told_as};
ghost use Rattle.book_run.specs.Tables.{answer_of, buffer_of};

use refusals::Refusal;
use script::table_answers;
use script::table_answers::Told;

#[derive(Clone, Copy)]
pub(crate) enum TableOperation {
    New,
    Check,
    Entry(usize),
    Declare { field: u32, code: u32 },
    Remove(u32),
    Lookup { field: u32, game: u32, number: i32 },
}

pub(crate) fn operate(b: &mut [u8], operation: TableOperation) -> Result<Told, Refusal>
    ensures result_value { told_as result ≡ answer_of operation b.old }
    ensures b_after { b.new ≡ buffer_of operation b.old }
{
    match operation {
        TableOperation::New => table_answers::started(field_table::new(b)),
        TableOperation::Check => table_answers::counted(field_table::check(b)),
        TableOperation::Entry(place) => table_answers::found(field_table::entry_at(b, place)),
        TableOperation::Declare { field, code } => table_answers::counted(field_table::declare(
            b, field, code,
        )),
        TableOperation::Remove(field) => table_answers::counted(field_table::remove(b, field)),
        TableOperation::Lookup {
            field,
            game,
            number,
        } => table_answers::looked(field_table::lookup(b, field, game, number)),
    }
}
