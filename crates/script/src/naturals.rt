// Numbers of a line, of fewer bits than those of `rows`, read as these are: where none is found the place after it is NOWHERE.
ghost use Rattle.std.specs.Prelude.{◌≡◌, ◌≤◌, drop};
ghost use Rattle.script.specs.Naturals.{natural_up_to, part_as};

// A part of a line, and the place after it.
#[derive(Clone, Copy)]
pub struct Part<T> {
    pub value: T,
    pub next: usize,
}

// A place is a number of 64 bits.
pub fn place_of(n: u64) -> usize
    ensures { result ≡ n }
{
    n as usize
}

// A number without a sign that is at most so great.
pub fn at_most(row: &[u8], at: usize, most: u64) -> Part<u64>
    ensures value { part_as row.now result ≡ natural_up_to most (drop at row.now) }
    ensures upper_bound { result.value ≤ most }
{
    let rows::Number { up, next, .. } = rows::natural(row, at);
    if most < up {
        return Part {
            value: 0,
            next: rows::NOWHERE,
        };
    }
    Part { value: up, next }
}

// A number of 32 bits without a sign.
// Kept (point 2): (d) it and `byte8` are a call of `at_most` each: one function generic over `TryFrom` would have more lines than both.
pub fn word32(row: &[u8], at: usize) -> Part<u32>
    ensures { part_as row.now result ≡ natural_up_to 4294967295 (drop at row.now) }
{
    let Part { value, next } = at_most(row, at, 0xffff_ffff);
    Part {
        value: value as u32,
        next,
    }
}

// A number of 8 bits without a sign.
pub fn byte8(row: &[u8], at: usize) -> Part<u8>
    ensures { part_as row.now result ≡ natural_up_to 255 (drop at row.now) }
{
    let Part { value, next } = at_most(row, at, 0xff);
    Part {
        value: value as u8,
        next,
    }
}
