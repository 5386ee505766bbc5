// The frame that books and tables share, in a lent buffer: four bytes of length, a version byte, pieces of one size. How many bytes a
// piece has, how many pieces there may be and the version are the caller's. Only the leaves touch bytes.
#![tactic(auto)]

ghost use Rattle.std.specs.Prelude.{◌≡◌, ◌+◌, ◌*◌, ◌≤◌, ◌<◌, length};
ghost use Rattle.std.proofs.lemmas.List.Edits.{sets};
ghost use Rattle.rules.specs.Words.{big_bytes};
ghost use Rattle.rules.specs.Book.{length_size, length_said, new_answer, new_buffer};
ghost use Rattle.frame.specs.Views.{frame_of, pieces_counted, framed_as, started_as};

use refusals::Refusal;

// The bytes that say the length.
pub const LENGTH_SIZE: usize = 4;

// The bytes before the first piece: the length's and the version byte.
pub const HEAD_SIZE: usize = LENGTH_SIZE + 1;

// What a frame depends on: the bytes of a piece, the most pieces and the version byte. The length of a full frame fits its four bytes.
#[derive(Clone, Copy)]
pub struct Frame {
    pub size: usize,
    pub most: usize,
    pub version: u8,
    pub ghost some: { 0 < size },
    pub ghost fits: { 1 + most * size < 4294967296 },
}

// The length that a frame says of itself.
pub fn length_said(b: &[u8]) -> usize
    requires { length_size ≤ length b.now }
    ensures { result ≡ length_said b.now }
{
    u32::from_be_bytes([b[0], b[1], b[2], b[3]]) as usize
}

pub fn put_length(b: &mut [u8], m: usize)
    requires { (length_size ≤ length b.old) × (m < 4294967296) }
    ensures { b.new ≡ sets b.old 0 (big_bytes length_size m) }
{
    b[..LENGTH_SIZE].copy_from_slice(&(m as u32).to_be_bytes());
}

impl Frame {
    // Whether the buffer starts with such a frame; and how many pieces it has.
    pub fn pieces_in(self, b: &[u8]) -> Result<usize, Refusal>
        ensures { framed_as result ≡ pieces_counted (frame_of self.size self.most self.version) b.now }
    {
        if b.len() < HEAD_SIZE {
            return Err(Refusal::BadLength);
        }
        let said = length_said(b);
        if said < 1 || 1 + self.most * self.size < said || b.len() < said + LENGTH_SIZE {
            return Err(Refusal::BadLength);
        }
        if b[LENGTH_SIZE] != self.version {
            return Err(Refusal::BadVersion);
        }
        if !(said - 1).is_multiple_of(self.size) {
            return Err(Refusal::BadLength);
        }
        Ok((said - 1) / self.size)
    }
}

// Writes an empty frame: its length counts the version byte alone. The bytes after it stay.
pub fn new(b: &mut [u8], version: u8) -> Result<(), Refusal>
    ensures result_value { started_as result ≡ new_answer b.old }
    ensures b_after { b.new ≡ new_buffer version b.old }
{
    if b.len() < HEAD_SIZE {
        return Err(Refusal::NoRoom);
    }
    b[LENGTH_SIZE] = version;
    put_length(b, 1);
    Ok(())
}
