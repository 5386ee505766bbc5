// Many answers in one call: each is four numbers, one after the other in a slice that the caller lends.
#![tactic(auto)]

ghost use Rattle.std.specs.Prelude.{◌≡◌, [], ◌∷◌, ◌+◌, ◌≤◌, length};
ghost use Rattle.std.proofs.lemmas.List.Edits.{sets};
ghost use Rattle.requests.specs.Fours.{least};

// The four numbers of one answer, from `at` on.
pub fn put(out: &mut [u32], at: usize, first: u32, second: u32, third: u32, fourth: u32)
    requires { at + 4 ≤ length out.old }
    ensures { out.new ≡ sets out.old at (first ∷ second ∷ third ∷ fourth ∷ []) }
{
    out[at..at + 4].copy_from_slice(&[first, second, third, fourth]);
}

// How many answers there are: as many as are asked for, and as there is room for.
pub fn least(a: usize, b: usize) -> usize
    ensures { result ≡ least a b }
{
    a.min(b)
}
