// Moves a version 1 table into a second buffer, as a table of league 1 alone. Nothing is written at a refusal; the target's later bytes
// stay.
ghost use Rattle.std.specs.Prelude.{◌≡◌, ◌∷◌, map, ◌+◌, ◌*◌, ◌≤◌, length, take, drop};
ghost use Rattle.std.proofs.lemmas.List.Edits.{sets};
ghost use Rattle.rules.specs.Book.{head_size, pieces};
ghost use Rattle.requests.specs.Laid.{joined};
ghost use Rattle.requests.specs.FieldTable.{counted};
ghost use Rattle.requests.specs.Leagues.{of_first, moved_entries, moved_buffer};
ghost use Rattle.field_table.specs.Views.{changed_as};

use crate::{FORMAT, SHARE, SIZE};
use frame::{HEAD_SIZE, LENGTH_SIZE};
use refusals::Refusal;

// The bytes of an entry of version 1.
const OLD_SIZE: usize = field_table::KEY_SIZE + 1;

// The entry at `at`, with league 1 before it.
fn put_first(from: &[u8], at: usize, to: &mut [u8], target: usize)
    requires { (at + 3 ≤ length from.now) × (target + 4 ≤ length to.old) }
    ensures { to.new ≡ sets to.old target (of_first (take 3 (drop at from.now))) }
{
    to[target] = 1;
    to[target + 1..target + SIZE].copy_from_slice(&from[at..at + OLD_SIZE]);
}

// The first n entries, from the head on.
fn put_all(from: &[u8], to: &mut [u8], n: usize)
    requires { (head_size + n * 3 ≤ length from.now) × (head_size + n * 4 ≤ length to.old) }
    ensures { to.new ≡ sets to.old head_size (joined (map of_first (pieces n 3 (drop head_size from.now)))) }
{
    for i in 0..n {
        put_first(from, HEAD_SIZE + i * OLD_SIZE, to, HEAD_SIZE + i * SIZE);
    }
}

// Moves a version 1 table of at most as many entries as a league's share. Gives how many there are.
pub fn from_table(from: &[u8], to: &mut [u8]) -> Result<usize, Refusal>
    ensures result_value { changed_as result ≡ counted (moved_entries from.now to.old) }
    ensures to_after { to.new ≡ moved_buffer from.now to.old }
{
    let n = field_table::check(from)?;
    if SHARE < n || to.len() < HEAD_SIZE + n * SIZE {
        return Err(Refusal::TableFull);
    }
    frame::put_length(to, 1 + n * SIZE);
    to[LENGTH_SIZE] = FORMAT.version;
    put_all(from, to, n);
    Ok(n)
}
