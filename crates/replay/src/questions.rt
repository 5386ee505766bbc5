// What a row asks, and what is told of it: of a kind, by the mark after the kind's letter, or of a leaf, by its first word. A row that
// cannot be read is told as one that cannot be asked.
use crate::answers::Told;
use crate::leaves::LeafTold;
use crate::{answers, days, leaves, marks, parts, quoted};
use kinds::Kind;
use refusals::Refusal;
use script::naturals;

// Room for the text of a row: for one of 64 bytes, the most that a text may have, and for those past it that are asked.
const TEXT_ROOM: usize = 96;

// What a row with the letter of a kind asks, but for the texts of a date.
pub(crate) fn of_kind(row: &[u8], kind: Kind) -> Result<Told, Refusal> {
    match rows::byte(row, 2) {
        b't' => text(row, kind),
        b'i' => iso(row, kind),
        b'b' => number(row, kind),
        b'g' => guess_or_greatest(row, kind),
        b'f' => fields(row, kind),
        b'a' => sum(row, kind),
        b'd' => difference(row, kind),
        b'n' => binary(row, kind),
        b'o' => order(row, kind),
        b'l' => least(row, kind),
        b'w' => without_mark(row, kind),
        _ => Ok(Told::Unasked),
    }
}

fn text(row: &[u8], kind: Kind) -> Result<Told, Refusal> {
    let mut buffer = [0u8; TEXT_ROOM];
    let text = quoted::text(row, rows::after_word(row, 1, b" t "), &mut buffer);
    let length = text.value;
    if rows::ends(row, text.next) {
        return answers::text(kind, &buffer[..length]);
    }
    Ok(Told::Unasked)
}

fn iso(row: &[u8], kind: Kind) -> Result<Told, Refusal> {
    let mut buffer = [0u8; TEXT_ROOM];
    let text = quoted::text(row, rows::after_word(row, 1, b" i "), &mut buffer);
    let length = text.value;
    if rows::ends(row, text.next) {
        return answers::iso(kind, &buffer[..length]);
    }
    Ok(Told::Unasked)
}

fn number(row: &[u8], kind: Kind) -> Result<Told, Refusal> {
    let n = rows::whole32(row, rows::after_word(row, 1, b" b "));
    if rows::ends(row, n.next) {
        return answers::number(kind, n.value);
    }
    Ok(Told::Unasked)
}

fn guess_or_greatest(row: &[u8], kind: Kind) -> Result<Told, Refusal> {
    if rows::ends(row, rows::after_word(row, 1, b" greatest")) {
        return answers::greatest(kind);
    }
    let n = rows::whole32(row, rows::after_word(row, 1, b" g "));
    if rows::ends(row, n.next) {
        return answers::guess(kind, n.value);
    }
    Ok(Told::Unasked)
}

fn fields(row: &[u8], kind: Kind) -> Result<Told, Refusal> {
    let f = parts::fields(row, rows::after_word(row, 1, b" f "));
    if rows::ends(row, f.next) {
        return answers::fields(kind, f.value);
    }
    Ok(Told::Unasked)
}

fn sum(row: &[u8], kind: Kind) -> Result<Told, Refusal> {
    let from = parts::date(row, rows::after_word(row, 1, b" a "));
    let days = rows::whole32(row, rows::after(row, from.next, b' '));
    if rows::ends(row, days.next) {
        return days::sum(kind, from.value, days.value);
    }
    Ok(Told::Unasked)
}

fn difference(row: &[u8], kind: Kind) -> Result<Told, Refusal> {
    let from = parts::date(row, rows::after_word(row, 1, b" d "));
    let to = parts::date(row, rows::after(row, from.next, b' '));
    if rows::ends(row, to.next) {
        return days::difference(kind, from.value, to.value);
    }
    Ok(Told::Unasked)
}

fn binary(row: &[u8], kind: Kind) -> Result<Told, Refusal> {
    let from = parts::date(row, rows::after_word(row, 1, b" n "));
    if rows::ends(row, from.next) {
        return days::binary(kind, from.value);
    }
    Ok(Told::Unasked)
}

fn order(row: &[u8], kind: Kind) -> Result<Told, Refusal> {
    let from = parts::date(row, rows::after_word(row, 1, b" o "));
    let to = parts::date(row, rows::after(row, from.next, b' '));
    if rows::ends(row, to.next) {
        return days::order(kind, from.value, to.value);
    }
    Ok(Told::Unasked)
}

fn least(row: &[u8], kind: Kind) -> Result<Told, Refusal> {
    if rows::ends(row, rows::after_word(row, 1, b" least")) {
        return answers::least(kind);
    }
    Ok(Told::Unasked)
}

fn without_mark(row: &[u8], kind: Kind) -> Result<Told, Refusal> {
    let from = parts::date(row, rows::after_word(row, 1, b" w "));
    if rows::ends(row, from.next) {
        return marks::without_mark(kind, from.value);
    }
    Ok(Told::Unasked)
}

// ---- the leaves

pub(crate) fn of_leaf(row: &[u8]) -> LeafTold {
    match rows::byte(row, 0) {
        b'l' => leading(row),
        b'd' => digits(row),
        b'm' => month_day(row),
        b'o' => ordinal(row),
        b'b' => leaf_binary(row),
        _ => LeafTold::Unasked,
    }
}

fn leading(row: &[u8]) -> LeafTold {
    let mut buffer = [0u8; TEXT_ROOM];
    let text = quoted::text(row, rows::after_word(row, 0, b"leading "), &mut buffer);
    let length = text.value;
    if rows::ends(row, text.next) {
        return leaves::leading(&buffer[..length]);
    }
    LeafTold::Unasked
}

fn digits(row: &[u8]) -> LeafTold {
    let word = parts::word(row, rows::after_word(row, 0, b"digits "));
    if rows::ends(row, word.next) {
        return leaves::digits(word.value);
    }
    LeafTold::Unasked
}

fn month_day(row: &[u8]) -> LeafTold {
    let day = naturals::at_most(row, rows::after_word(row, 0, b"month_day "), 364);
    if rows::ends(row, day.next) {
        return leaves::month_day(day.value as u16);
    }
    LeafTold::Unasked
}

fn ordinal(row: &[u8]) -> LeafTold {
    let month = naturals::byte8(row, rows::after_word(row, 0, b"ordinal "));
    if rows::ends(row, month.next) {
        return leaves::ordinal(month.value);
    }
    LeafTold::Unasked
}

fn leaf_binary(row: &[u8]) -> LeafTold {
    let year = parts::year(row, rows::after_word(row, 0, b"binary "));
    let day = naturals::at_most(row, rows::after(row, year.next, b' '), 364);
    let hour = naturals::byte8(row, rows::after(row, day.next, b' '));
    if rows::ends(row, hour.next) {
        return leaves::binary(year.value, day.value as u16, hour.value);
    }
    LeafTold::Unasked
}
