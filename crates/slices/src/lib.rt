// What is asked of slices of bytes, whatever they hold.
#![tactic(auto)]

ghost use Rattle.std.specs.Prelude.{◌≡◌};
ghost use Rattle.rules.specs.Words.{same_bytes};

// Whether two slices have the same bytes: no further than to the first that differs.
pub fn same(a: &[u8], b: &[u8]) -> bool
    ensures { result ≡ same_bytes a.now b.now }
{
    a == b
}
