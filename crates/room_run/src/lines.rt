// The rows of a script. Each word that a row may begin with has five bytes. What stands behind it is read once, as a number, as a number
// and a byte, and as a text; the word says which of them it is, and where the row has to end.
ghost use Rattle.std.specs.Prelude.{◌≡◌, drop};
ghost use Rattle.room_run.specs.Lines.{line_of, worded_or, text_of};

use script::naturals;

#[derive(Clone, Copy)]
pub(crate) enum Line {
    Remark,
    Clear,
    // What stands from a place on, up to the line end, and so many line ends behind it.
    Put { from: usize, ends: usize },
    Room(usize),
    List { length: usize, byte: u8 },
    Unread,
}

// The bytes of a word.
const WORD: usize = 5;

pub(crate) fn read(row: &[u8]) -> Line
    ensures { result ≡ line_of row.now }
{
    if rows::byte(row, 0) == b'#' {
        return Line::Remark;
    }
    if row.len() < WORD {
        return Line::Unread;
    }
    let n = rows::natural(row, WORD);
    let b = naturals::byte8(row, rows::after(row, n.next, b' '));
    let text = spans::find(row, WORD, row.len(), b'\n');
    let count = naturals::place_of(n.up);
    let found = worded(row, b"clear", WORD, Line::Clear, Line::Unread);
    let line = Line::Put {
        from: WORD,
        ends: 1,
    };
    let found = worded(row, b"line ", text, line, found);
    let part = Line::Put {
        from: WORD,
        ends: 0,
    };
    let found = worded(row, b"part ", text, part, found);
    let ends = Line::Put {
        from: row.len(),
        ends: count,
    };
    let found = worded(row, b"ends ", n.next, ends, found);
    let found = worded(row, b"room ", n.next, Line::Room(count), found);
    let list = Line::List {
        length: count,
        byte: b.value,
    };
    worded(row, b"list ", b.next, list, found)
}

// The line, where the row begins with a word and ends at a place; or else the other.
fn worded(row: &[u8], word: &[u8], end: usize, line: Line, other: Line) -> Line
    ensures { result ≡ worded_or word.now row.now (drop end row.now) line other }
{
    if rows::ends(row, end) && rows::after_word(row, 0, word) < row.len() {
        line
    } else {
        other
    }
}

// What stands from a place on, up to the line end.
pub(crate) fn text(row: &[u8], from: usize) -> &[u8]
    ensures { result.now ≡ text_of (drop from row.now) }
{
    if row.len() < from {
        return &row[..0];
    }
    let end = spans::find(row, from, row.len(), b'\n');
    &row[from..end]
}
