// One entry of a table, over its format: what it declares, and a number looked up by the entry that has a key.
ghost use Rattle.std.specs.Prelude.{◌≡◌, true, ◌+◌, ◌≤◌, length, take, drop};
ghost use Rattle.rules.specs.Refusals.{given};
ghost use Rattle.rules.specs.Numbers.{guesses};
ghost use Rattle.requests.specs.Entries.{standing};
ghost use Rattle.requests.specs.FieldTable.{key_in, declared_by, in_order, look_by};
ghost use Rattle.kinds.specs.Views.{kind_of};
ghost use Rattle.field_table.specs.Search.{Room, entries_in};
ghost use Rattle.field_table.specs.Views.{entry_as, in_bits, looked_as};

use crate::sized::Format;
use crate::{Entry, Looked, allowed};
use frame::HEAD_SIZE;
use kinds::Kind;
use refusals::Refusal;

// What the entry that starts at `at` declares, by its key; one of a table that was checked declares a field.
pub fn declared_at(b: &[u8], at: usize, format: Format) -> Result<Entry, Refusal>
    requires key_size_in_bounds { at + (format.key_size + 1) ≤ length b.now }
    requires b_value { given (declared_by format.key_size (take (format.key_size + 1) (drop at b.now))) ≡ true }
    ensures { entry_as result ≡ declared_by format.key_size (take (format.key_size + 1) (drop at b.now)) }
{
    let field = format.key_at(b, at) as u32;
    let kind = allowed::entry_kind(b[at + format.key_size]).ok_or(Refusal::BadEntry)?;
    Ok(Entry { field, kind })
}

// A number looked up by a key among n entries: the full decoding of the kind that the key's entry declares, or the game kind's guess. Only
// the entries on the way to the key's are looked at.
pub fn look(
    b: &[u8],
    n: usize,
    format: Format,
    key: usize,
    game: Kind,
    number: i32,
) -> Result<Looked, Refusal>
    requires room { Room format.key_size n (length b.now) }
    requires b_value { in_order format.key_size (entries_in format.key_size n b.now) ≡ true }
    requires game_value { guesses (kind_of game) ≡ true }
    ensures { looked_as result ≡ in_bits (look_by format.key_size (standing (key_in format.key_size) key (entries_in format.key_size n b.now)) (kind_of game) number) }
{
    match format.find(b, n, key) {
        Ok(i) => {
            let at = HEAD_SIZE + i * (format.key_size + 1);
            crate::decode(b[at + format.key_size], number)
        }
        Err(_) => crate::guess(game, number),
    }
}
