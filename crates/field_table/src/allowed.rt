// Which kinds and which fields a table's entries and calls may have.
ghost use Rattle.std.specs.Prelude.{◌≡◌, ◌<◌};
ghost use Rattle.kinds.specs.Views.{kind_of};
ghost use Rattle.requests.specs.FieldTable.{is_key, declared_kind, game_kind, entry_bytes};
ghost use Rattle.field_table.specs.Views.{allowed_as};

use crate::KEY_SIZE;
use kinds::Kind;

// The kind of a code, if it reads numbers: only such a kind can be declared.
pub fn declared_kind(code: u32) -> Option<Kind>
    ensures { allowed_as result ≡ declared_kind code }
{
    let kind = codes::kind_of_code(code)?;
    number::reads_numbers(kind).then_some(kind)
}

// The same of the byte that an entry ends in.
pub fn entry_kind(code: u8) -> Option<Kind>
    ensures { allowed_as result ≡ declared_kind code }
{
    declared_kind(code as u32)
}

// The kind of a code, if it guesses: only such a kind is a game's.
pub fn game_kind(code: u32) -> Option<Kind>
    ensures { allowed_as result ≡ game_kind code }
{
    let kind = codes::kind_of_code(code)?;
    number::has_guess(kind).then_some(kind)
}

// Whether a number is a field's: 1 to 65,535.
pub fn is_field(field: u32) -> bool
    ensures { result ≡ is_key 2 field }
{
    1 <= field && field <= 65535
}

// The entry of a field and its kind.
pub fn entry_bytes(field: u32, kind: Kind) -> [u8; KEY_SIZE + 1]
    requires { field < 65536 }
    ensures { result ≡ entry_bytes 2 (record { key = field; kind = kind_of kind }) }
{
    let [f1, f0] = (field as u16).to_be_bytes();
    [f1, f0, codes::kind_code(kind)]
}
