// What each operation on a table gives, in one type.
ghost use Rattle.std.specs.Prelude.{◌≡◌};
ghost use Rattle.rules.specs.Refusals.{Gives, ◌then◌};
ghost use Rattle.frame.specs.Views.{started_as};
ghost use Rattle.field_table.specs.Views.{changed_as, entry_as, looked_as};
ghost use Rattle.script.specs.TableAnswers.{Done, Number, Declares, Dated, told_as, is_number};

use field_table::{Entry, Looked};
use refusals::Refusal;

// What is told of an operation that was not refused.
#[derive(Clone, Copy)]
pub enum Told {
    Done,
    Number(usize),
    Entry(Entry),
    Dated(Looked),
}

// Whether a number is told, and no refusal.
pub fn is_number(told: Result<Told, Refusal>) -> bool
    ensures { result ≡ is_number told }
{
    matches!(told, Ok(Told::Number(_)))
}

pub fn started(answer: Result<(), Refusal>) -> Result<Told, Refusal>
    ensures { told_as result ≡ (started_as answer then λ n. Gives Done) }
{
    answer?;
    Ok(Told::Done)
}

// The number of entries that a check or a change gives.
pub fn counted(answer: Result<usize, Refusal>) -> Result<Told, Refusal>
    ensures { told_as result ≡ (changed_as answer then λ n. Gives (Number n)) }
{
    let n = answer?;
    Ok(Told::Number(n))
}

pub fn found(answer: Result<Entry, Refusal>) -> Result<Told, Refusal>
    ensures { told_as result ≡ (entry_as answer then λ d. Gives (Declares d)) }
{
    let entry = answer?;
    Ok(Told::Entry(entry))
}

pub fn looked(answer: Result<Looked, Refusal>) -> Result<Told, Refusal>
    ensures { told_as result ≡ (looked_as answer then λ b. Gives (Dated b)) }
{
    let looked = answer?;
    Ok(Told::Dated(looked))
}
