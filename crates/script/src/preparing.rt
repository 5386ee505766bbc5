// What a script does to its buffer outside the operations. Each of those that can miss the buffer says whether it was done, and changes no
// byte if it was not.
ghost use Rattle.std.specs.Prelude.{◌≡◌, cond, eqb, ltb, length, replicate, set};
ghost use Rattle.std.proofs.lemmas.List.Edits.{sets};
ghost use Rattle.script.specs.Preparing.{entries_fit, entry_run};

pub fn fill(buffer: &mut [u8], byte: u8)
    ensures { buffer.new ≡ replicate (length buffer.old) byte }
{
    buffer.fill(byte);
}

// The target of a move, as the buffer.
pub fn put(buffer: &mut [u8], target: &[u8]) -> bool
    ensures value { result ≡ eqb (length buffer.old) (length target.now) }
    ensures buffer_after { buffer.new ≡ cond result target.now buffer.old }
{
    if buffer.len() != target.len() {
        return false;
    }
    buffer.copy_from_slice(target);
    true
}

pub fn set_byte(buffer: &mut [u8], place: usize, byte: u8) -> bool
    ensures value { result ≡ ltb place (length buffer.old) }
    ensures buffer_after { buffer.new ≡ cond result (set buffer.old place byte) buffer.old }
{
    if buffer.len() <= place {
        return false;
    }
    buffer[place] = byte;
    true
}

// The three bytes of each of so many entries of a table, from a place on: the fields from the first on, all of one code.
pub fn entries(buffer: &mut [u8], place: usize, first: usize, count: usize, code: u8) -> bool
    ensures value { result ≡ entries_fit place first count (length buffer.old) }
    ensures buffer_after { buffer.new ≡ cond result (sets buffer.old place (entry_run first count code)) buffer.old }
{
    if 65536 < count || 65536 - count < first {
        return false;
    }
    if buffer.len() < 3 * count || buffer.len() - 3 * count < place {
        return false;
    }
    for i in 0..count {
        let field = first + i;
        let at = place + 3 * i;
        buffer[at] = (field / 256) as u8;
        buffer[at + 1] = (field % 256) as u8;
        buffer[at + 2] = code;
    }
    true
}
