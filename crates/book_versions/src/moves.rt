// Moves a book into a second buffer as one of the other version. Nothing is written at a refusal; the target's later bytes stay.
ghost use Rattle.std.specs.Prelude.{◌≡◌, map, ◌+◌, ◌*◌, ◌≤◌, ◌<◌, length, take, drop};
ghost use Rattle.std.proofs.lemmas.List.Edits.{sets};
ghost use Rattle.rules.specs.Book.{head_size, pieces};
ghost use Rattle.requests.specs.Laid.{joined};
ghost use Rattle.requests.specs.Moves.{move_answer, move_buffer, upward, downward};
ghost use Rattle.frame.specs.Views.{frame_of};
ghost use Rattle.book.specs.Views.{least_size};
ghost use Rattle.book_versions.specs.Recast.{recast, recast_all, lay_answer, lay_buffer, moved_as};

use crate::second;
use book::sized::Format;
use frame::{Frame, HEAD_SIZE, LENGTH_SIZE};
use refusals::Refusal;

// The bytes of a date, and those of a record without a field number.
const DATE_SIZE: usize = 4;

const LEAST_SIZE: usize = 1 + DATE_SIZE;

// The room that a move needs: the bytes of a book of n records of that size.
fn room_for(n: usize, size: usize) -> usize
    requires { 1 + n * size < 4294967296 }
    ensures { result ≡ head_size + n * size }
{
    HEAD_SIZE + n * size
}

// A record of `size` bytes at `at`, written as one of `new_size` bytes at `target`: its kind, zeros for what lies between, its date.
fn put_recast(from: &[u8], at: usize, size: usize, to: &mut [u8], target: usize, new_size: usize)
    requires least_size_le_size { (least_size ≤ size) × (at + size ≤ length from.now) }
    requires least_size_le_new_size { (least_size ≤ new_size) × (target + new_size ≤ length to.old) }
    ensures { to.new ≡ sets to.old target (recast size new_size (take size (drop at from.now))) }
{
    to[target] = from[at];
    shifts::zero(to, target + 1, new_size - LEAST_SIZE);
    let date = at + size - DATE_SIZE;
    book::slots::put(
        to,
        target + new_size - DATE_SIZE,
        &from[date..date + DATE_SIZE],
    );
}

// The first n records, from the head on.
fn recast_all(from: &[u8], size: usize, to: &mut [u8], new_size: usize, n: usize)
    requires least_size_le_size { (least_size ≤ size) × (head_size + n * size ≤ length from.now) }
    requires least_size_le_new_size { (least_size ≤ new_size) × (head_size + n * new_size ≤ length to.old) }
    ensures { to.new ≡ sets to.old head_size (joined (recast_all size new_size (pieces n size (drop head_size from.now)))) }
{
    for i in 0..n {
        put_recast(
            from,
            HEAD_SIZE + i * size,
            size,
            to,
            HEAD_SIZE + i * new_size,
            new_size,
        );
    }
}

// The book of n records that were found fit to move, if the target has room for it.
fn lay(from: &[u8], size: usize, to: &mut [u8], new: Frame, n: usize) -> Result<usize, Refusal>
    requires least_size_le_size { (least_size ≤ size) × (head_size + n * size ≤ length from.now) }
    requires least_size_le_new_size { (least_size ≤ new.size) × (1 + n * new.size < 4294967296) }
    ensures result_value { moved_as result ≡ lay_answer new.size n to.old }
    ensures to_after { to.new ≡ lay_buffer new.size new.version (recast_all size new.size (pieces n size (drop head_size from.now))) to.old }
{
    if to.len() < room_for(n, new.size) {
        return Err(Refusal::NoRoom);
    }
    frame::put_length(to, 1 + n * new.size);
    to[LENGTH_SIZE] = new.version;
    recast_all(from, size, to, new.size, n);
    Ok(n)
}

// Moves a book of version 1 into the target as one of version 2: every record gets the field number 0. Gives how many moved.
pub fn to_2(from: &[u8], to: &mut [u8]) -> Result<usize, Refusal>
    ensures result_value { moved_as result ≡ move_answer upward from.now to.old }
    ensures to_after { to.new ≡ move_buffer upward from.now to.old }
{
    let n = book::check(from)?;
    lay(from, book::SIZE, to, second::FORMAT.frame, n)
}

// Moves a book of version 2 into the target as one of version 1, where no record has a field number or a mark; else it gives the place of
// the first that has.
pub fn to_1(from: &[u8], to: &mut [u8]) -> Result<usize, Refusal>
    ensures result_value { moved_as result ≡ move_answer downward from.now to.old }
    ensures to_after { to.new ≡ move_buffer downward from.now to.old }
{
    let n = second::check(from)?;
    let plain = Format {
        frame: second::FORMAT.frame,
        plain: book::FORMAT.plain,
    };
    let more = plain.first_bad(from, n);
    if more < n {
        return Err(Refusal::FieldOrMark(more));
    }
    lay(from, second::SIZE, to, book::FORMAT.frame, n)
}
