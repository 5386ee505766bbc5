// The shapes that a text of a kind may have: D alone has rules.
ghost use Rattle.std.specs.Prelude.{◌≡◌};
ghost use Rattle.rules.specs.Kinds.{kD};
ghost use Rattle.rules.specs.Text.{plus_allowed, shape_allowed};
ghost use Rattle.kinds.specs.Views.{kind_of};

use kinds::Kind;

// A leading `+` is taken at length 8, at length 10 with dots at 4 and 7, and at length 9 with dots at 4 and 6 or 4 and 7.
fn plus_allowed(s: &[u8]) -> bool
    ensures { result ≡ plus_allowed s.now }
{
    match s.len() {
        8 => true,
        9 => s[4] == b'.' && (s[6] == b'.' || s[7] == b'.'),
        10 => s[4] == b'.' && s[7] == b'.',
        _ => false,
    }
}

// D's own rules: 5 to 12 bytes, and a leading `+` only in the shapes above.
fn plain_shape(s: &[u8]) -> bool
    ensures { result ≡ shape_allowed kD s.now }
{
    match s.len() {
        5..=12 => s[0] != b'+' || plus_allowed(s),
        _ => false,
    }
}

#[inline]
#[tactic(auto, unfolding(rules::specs::Text::shape_allowed))]
pub(crate) fn shape_allowed(kind: Kind, s: &[u8]) -> bool
    ensures { result ≡ shape_allowed (kind_of kind) s.now }
{
    match kind {
        Kind::Date => plain_shape(s),
        Kind::Raw | Kind::Hour | Kind::Uniform | Kind::Eu5 | Kind::Vic3 => true,
    }
}
