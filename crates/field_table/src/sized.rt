// A table whose keys have any number of bytes up to four, over its format: its check, the place of a key, one entry declared and one
// removed. Entries stand from the head on, ascending by their key, which is all of an entry but its last byte.
ghost use Rattle.std.specs.Prelude.{◌≡◌, true, ◌+◌, ◌*◌, ◌^◌, ◌≤◌, ◌<◌, length, take, drop};
ghost use Rattle.rules.specs.Book.{version_of};
ghost use Rattle.requests.specs.Entries.{ascends, place};
ghost use Rattle.requests.specs.FieldTable.{key_in, in_order, counted, check, declare_in, remove_in, table_buffer};
ghost use Rattle.field_table.specs.Search.{widest, Room, entries_in, find_of};
ghost use Rattle.field_table.specs.Views.{table_of, checked_as, changed_as};

use crate::allowed;
use frame::{Frame, HEAD_SIZE};
use refusals::Refusal;

// The bytes of a key, the most entries and the version byte of a table. The length of a full table fits its four bytes.
#[derive(Clone, Copy)]
pub struct Format {
    pub key_size: usize,
    pub most: usize,
    pub version: u8,
    pub ghost narrow: { key_size ≤ widest },
    pub ghost fits: { 1 + most * (key_size + 1) < 4294967296 },
}

// Kept (point 5): (d) `declare` and `remove` ask for n ordered entries of bytes that they change: a struct of both would be made for a call.
impl Format {
    // The key of the entry that starts at `at`, the largest byte first.
    pub fn key_at(self, b: &[u8], at: usize) -> usize
        requires { at + (self.key_size + 1) ≤ length b.now }
        ensures value { result ≡ key_in self.key_size (take (self.key_size + 1) (drop at b.now)) }
        ensures upper_bound { result < 256 ^ self.key_size }
    {
        let mut key = 0;
        for byte in &b[at..at + self.key_size] {
            key = key * 256 + *byte as usize;
        }
        key
    }

    // Whether each of n entries declares a field, and their keys strictly ascend. A key that is above the one before is above 0.
    fn in_order(self, b: &[u8], n: usize) -> bool
        requires { Room self.key_size n (length b.now) }
        ensures { result ≡ in_order self.key_size (entries_in self.key_size n b.now) }
    {
        let mut last = 0;
        for i in 0..n {
            let at = HEAD_SIZE + i * (self.key_size + 1);
            let key = self.key_at(b, at);
            if key <= last || allowed::entry_kind(b[at + self.key_size]).is_none() {
                return false;
            }
            last = key;
        }
        true
    }

    // Whether the buffer starts with a table, and how many entries it has.
    pub fn check_of(self, b: &[u8]) -> Result<usize, Refusal>
        ensures { checked_as result ≡ check (table_of self.key_size self.most self.version) b.now }
    {
        let frame = Frame {
            size: self.key_size + 1,
            most: self.most,
            version: self.version,
        };
        let n = frame.pieces_in(b)?;
        if !self.in_order(b, n) {
            return Err(Refusal::BadEntry);
        }
        Ok(n)
    }

    // The number of entries with a smaller key, by halving.
    // Kept (point 6): (a) its clause and the laws of `Finds` hold for keys of each size up to four: no slice of arrays for `partition_point`.
    pub fn place_of(self, b: &[u8], n: usize, key: usize) -> usize
        requires room { Room self.key_size n (length b.now) }
        requires b_value { ascends (key_in self.key_size) 0 (entries_in self.key_size n b.now) ≡ true }
        ensures { result ≡ place (key_in self.key_size) key (entries_in self.key_size n b.now) }
    {
        let mut low = 0;
        let mut high = n;
        while low < high {
            let middle = low + (high - low) / 2;
            if self.key_at(b, HEAD_SIZE + middle * (self.key_size + 1)) < key {
                low = middle + 1;
            } else {
                high = middle;
            }
        }
        low
    }

    // Where the entry with the key stands, or else where it would stand.
    pub fn find(self, b: &[u8], n: usize, key: usize) -> Result<usize, usize>
        requires room { Room self.key_size n (length b.now) }
        requires b_value { ascends (key_in self.key_size) 0 (entries_in self.key_size n b.now) ≡ true }
        ensures { result ≡ find_of self.key_size key (entries_in self.key_size n b.now) }
    {
        let i = self.place_of(b, n, key);
        if i < n && self.key_at(b, HEAD_SIZE + i * (self.key_size + 1)) == key {
            return Ok(i);
        }
        Err(i)
    }

    // An entry takes the place of the one with its key, or is put in where there are fewer than the most and bytes for it. The version
    // byte stays as it is.
    pub fn declare(self, b: &mut [u8], n: usize, entry: &[u8]) -> Result<usize, Refusal>
        requires room { Room self.key_size n (length b.old) }
        requires b_value { ascends (key_in self.key_size) 0 (entries_in self.key_size n b.old) ≡ true }
        requires len { (length entry.now ≡ self.key_size + 1) × (n ≤ self.most) }
        ensures result_value { changed_as result ≡ counted (declare_in (table_of self.key_size self.most (version_of b.old)) b.old (entries_in self.key_size n b.old) entry.now) }
        ensures b_after { b.new ≡ table_buffer (table_of self.key_size self.most (version_of b.old)) 0 (declare_in (table_of self.key_size self.most (version_of b.old)) b.old (entries_in self.key_size n b.old) entry.now) b.old }
    {
        let size = self.key_size + 1;
        match self.find(b, n, self.key_at(entry, 0)) {
            Ok(i) => {
                shifts::put(b, HEAD_SIZE + i * size, entry);
                frame::put_length(b, 1 + n * size);
                Ok(n)
            }
            Err(i) => {
                let end = HEAD_SIZE + n * size;
                if self.most <= n || b.len() < end + size {
                    return Err(Refusal::TableFull);
                }
                shifts::insert(b, HEAD_SIZE + i * size, end, entry);
                frame::put_length(b, 1 + (n + 1) * size);
                Ok(n + 1)
            }
        }
    }

    // The entry with the key is taken out, the later ones close up, and the bytes freed are 0.
    pub fn remove(self, b: &mut [u8], n: usize, key: usize) -> Result<usize, Refusal>
        requires room { Room self.key_size n (length b.old) }
        requires b_value { ascends (key_in self.key_size) 0 (entries_in self.key_size n b.old) ≡ true }
        requires key_size_bound { 1 + n * (self.key_size + 1) < 4294967296 }
        ensures result_value { changed_as result ≡ counted (remove_in self.key_size key (entries_in self.key_size n b.old)) }
        ensures b_after { b.new ≡ table_buffer (table_of self.key_size n (version_of b.old)) (self.key_size + 1) (remove_in self.key_size key (entries_in self.key_size n b.old)) b.old }
    {
        let size = self.key_size + 1;
        let Ok(i) = self.find(b, n, key) else {
            return Err(Refusal::NotThere);
        };
        shifts::remove(b, HEAD_SIZE + i * size, HEAD_SIZE + n * size, size);
        frame::put_length(b, 1 + (n - 1) * size);
        Ok(n - 1)
    }
}
