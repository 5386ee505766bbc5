// What a script does to its buffer outside the operations, beside what `script::preparing` has. What can miss the buffer says whether it
// was done.
use script::preparing;

// One byte; or the entries of so many fields from the first on, all of one code, from a place on: of version 1 in three bytes each, of
// version 2 in four, with the league before the field.
#[derive(Clone, Copy)]
pub(crate) enum Setting {
    Byte {
        place: usize,
        byte: u8,
    },
    Entries {
        place: usize,
        first: usize,
        count: usize,
        code: u8,
    },
    Shares {
        place: usize,
        league: u8,
        first: usize,
        count: usize,
        code: u8,
    },
}

pub(crate) fn set(buffer: &mut [u8], setting: Setting) -> bool {
    match setting {
        Setting::Byte { place, byte } => preparing::set_byte(buffer, place, byte),
        Setting::Entries {
            place,
            first,
            count,
            code,
        } => preparing::entries(buffer, place, first, count, code),
        Setting::Shares {
            place,
            league,
            first,
            count,
            code,
        } => shares(buffer, place, league, first, count, code),
    }
}

// Kept (point 2): (d) beside `preparing::entries`: a size for both would ask for laws of its own about a loop of four stores.
fn shares(
    buffer: &mut [u8],
    place: usize,
    league: u8,
    first: usize,
    count: usize,
    code: u8,
) -> bool {
    if 65536 < count || 65536 - count < first {
        return false;
    }
    if buffer.len() < 4 * count || buffer.len() - 4 * count < place {
        return false;
    }
    for i in 0..count {
        let field = first + i;
        let at = place + 4 * i;
        buffer[at] = league;
        buffer[at + 1] = (field / 256) as u8;
        buffer[at + 2] = (field % 256) as u8;
        buffer[at + 3] = code;
    }
    true
}
