// The operations of version 2 and of either version, and the moves, told as those of `operations` are.
ghost use Rattle.std.specs.Prelude.{◌≡◌};
ghost use Rattle.book_run.specs.Operations.{told_as};
ghost use Rattle.book_run.specs.Versions.{answer_of, buffer_of, move_of, target_of};

use crate::operations;
use crate::operations::Told;
use book_versions::{any, moves, second};
use kinds::{Kind, Packed};
use refusals::Refusal;

#[derive(Clone, Copy)]
pub(crate) enum VersionOperation {
    New,
    Check,
    Record(usize),
    Append {
        kind: Kind,
        field: u16,
        date: Packed,
    },
    AnyCheck,
    AnyRecord(usize),
}

pub(crate) fn operate(b: &mut [u8], operation: VersionOperation) -> Result<Told, Refusal>
    ensures result_value { told_as result ≡ answer_of operation b.old }
    ensures b_after { b.new ≡ buffer_of operation b.old }
{
    match operation {
        VersionOperation::New => operations::started(second::new(b)),
        VersionOperation::Check => operations::counted(second::check(b)),
        VersionOperation::Record(place) => operations::found(second::record_at(b, place)),
        VersionOperation::Append { kind, field, date } => {
            operations::counted(second::append(b, kind, field, date))
        }
        VersionOperation::AnyCheck => operations::counted(any::check(b)),
        VersionOperation::AnyRecord(place) => {
            operations::found(book_reader::any::next_at(b, place))
        }
    }
}

// Moves a book into a target, up to version 2 or down to version 1.
pub(crate) fn move_book(from: &[u8], to: &mut [u8], upward: bool) -> Result<Told, Refusal>
    ensures result_value { told_as result ≡ move_of upward from.now to.old }
    ensures to_after { to.new ≡ target_of upward from.now to.old }
{
    operations::counted(if upward {
        moves::to_2(from, to)
    } else {
        moves::to_1(from, to)
    })
}
