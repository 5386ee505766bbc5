// The lines of a script.
use crate::operations::Operation;
use crate::setting::Setting;
use script::reader::Reader;

#[derive(Clone, Copy)]
pub(crate) enum Line {
    Remark,
    Buffer { length: usize, byte: u8 },
    Setting(Setting),
    Swap,
    Operation(Operation),
    Move { length: usize, byte: u8 },
    Unread,
}

pub(crate) fn read(row: &[u8]) -> Line {
    let row = Reader::new(row);
    match row.byte() {
        b'#' => Line::Remark,
        b'b' => buffer(row.after(b"buffer")),
        b's' => set_or_share(row.after(b"s")),
        b'e' => entry_or_entries(row.after(b"entr")),
        b'n' => asked(row.after(b"new"), Operation::New),
        b'c' => check(row.after(b"check")),
        b'd' => declare(row.after(b"declare")),
        b'r' => remove(row.after(b"remove")),
        b'l' => lookup(row.after(b"lookup")),
        b'f' => from_table(row.after(b"from")),
        b't' => old(row.after(b"table ")),
        _ => Line::Unread,
    }
}

// By the second letter.
fn set_or_share(row: Reader) -> Line {
    match row.byte() {
        b'e' => set(row.after(b"et")),
        b'h' => shares(row.after(b"hares")),
        _ => whole(row.after(b"wap"), Line::Swap),
    }
}

// By the fifth letter.
fn entry_or_entries(row: Reader) -> Line {
    match row.byte() {
        b'i' => entries(row.after(b"ies")),
        _ => entry(row.after(b"y")),
    }
}

// By the first letter after `table `.
fn old(row: Reader) -> Line {
    match row.byte() {
        b'c' => asked(row.after(b"check"), Operation::OldCheck),
        _ => old_lookup(row.after(b"lookup")),
    }
}

// A line that ends after its parts.
fn whole(row: Reader, line: Line) -> Line {
    if row.ends() { line } else { Line::Unread }
}

fn asked(row: Reader, operation: Operation) -> Line {
    whole(row, Line::Operation(operation))
}

// ---- what prepares the buffer

fn buffer(mut row: Reader) -> Line {
    let line = Line::Buffer {
        length: row.place(),
        byte: row.byte8(),
    };
    whole(row, line)
}

fn set(mut row: Reader) -> Line {
    let setting = Setting::Byte {
        place: row.place(),
        byte: row.byte8(),
    };
    whole(row, Line::Setting(setting))
}

fn entries(mut row: Reader) -> Line {
    let setting = Setting::Entries {
        place: row.place(),
        first: row.place(),
        count: row.place(),
        code: row.byte8(),
    };
    whole(row, Line::Setting(setting))
}

fn shares(mut row: Reader) -> Line {
    let setting = Setting::Shares {
        place: row.place(),
        league: row.byte8(),
        first: row.place(),
        count: row.place(),
        code: row.byte8(),
    };
    whole(row, Line::Setting(setting))
}

// ---- the operations

fn check(mut row: Reader) -> Line {
    let operation = Operation::Check(row.word32());
    asked(row, operation)
}

fn entry(mut row: Reader) -> Line {
    let operation = Operation::Entry {
        league: row.word32(),
        place: row.place(),
    };
    asked(row, operation)
}

fn declare(mut row: Reader) -> Line {
    let operation = Operation::Declare {
        league: row.word32(),
        field: row.word32(),
        code: row.word32(),
    };
    asked(row, operation)
}

fn remove(mut row: Reader) -> Line {
    let operation = Operation::Remove {
        league: row.word32(),
        field: row.word32(),
    };
    asked(row, operation)
}

fn lookup(mut row: Reader) -> Line {
    let operation = Operation::Lookup {
        league: row.word32(),
        field: row.word32(),
        game: row.word32(),
        number: row.whole32(),
    };
    asked(row, operation)
}

fn old_lookup(mut row: Reader) -> Line {
    let operation = Operation::OldLookup {
        field: row.word32(),
        game: row.word32(),
        number: row.whole32(),
    };
    asked(row, operation)
}

fn from_table(mut row: Reader) -> Line {
    let line = Line::Move {
        length: row.place(),
        byte: row.byte8(),
    };
    whole(row, line)
}
