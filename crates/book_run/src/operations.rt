// The book's operations, and what each gives in one type.
ghost use Rattle.std.specs.Prelude.{◌≡◌};
ghost use Rattle.rules.specs.Refusals.{Gives, ◌then◌};
ghost use Rattle.frame.specs.Views.{started_as};
ghost use Rattle.book.specs.Views.{checked_as, found_as};
ghost use Rattle.book_run.specs.Operations.{Done, Number, Recorded, told_as, answer_of, buffer_of};

use book::Record;
use kinds::{Kind, Packed};
use refusals::Refusal;

#[derive(Clone, Copy)]
pub(crate) enum Operation {
    New,
    Check,
    Record(usize),
    Append { kind: Kind, date: Packed },
}

// What is told of an operation that was not refused.
// Kept (point 2): (a) `answer_of` of the specs gives a `Value` of this crate, with records, and that of `script` one of tables.
#[derive(Clone, Copy)]
pub(crate) enum Told {
    Done,
    Number(usize),
    Record(Record),
}

pub(crate) fn operate(b: &mut [u8], operation: Operation) -> Result<Told, Refusal>
    ensures result_value { told_as result ≡ answer_of operation b.old }
    ensures b_after { b.new ≡ buffer_of operation b.old }
{
    match operation {
        Operation::New => started(book::new(b)),
        Operation::Check => counted(book::check(b)),
        Operation::Record(place) => found(book_reader::next_at(b, place)),
        Operation::Append { kind, date } => counted(book::append(b, kind, date)),
    }
}

pub(crate) fn started(answer: Result<(), Refusal>) -> Result<Told, Refusal>
    ensures { told_as result ≡ (started_as answer then λ n. Gives Done) }
{
    answer?;
    Ok(Told::Done)
}

// A number of records or of bytes, or a place.
pub(crate) fn counted(answer: Result<usize, Refusal>) -> Result<Told, Refusal>
    ensures { told_as result ≡ (checked_as answer then λ n. Gives (Number n)) }
{
    let n = answer?;
    Ok(Told::Number(n))
}

pub(crate) fn found(answer: Result<Record, Refusal>) -> Result<Told, Refusal>
    ensures { told_as result ≡ (found_as answer then λ b. Gives (Recorded b)) }
{
    let record = answer?;
    Ok(Told::Record(record))
}
