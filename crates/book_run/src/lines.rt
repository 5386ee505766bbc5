// The lines of a script.
use crate::gaps::GapLine;
use crate::operations::Operation;
use crate::tables::TableOperation;
use crate::versions::VersionOperation;
use crate::{table_lines, version_lines};
use script::reader::Reader;

#[derive(Clone, Copy)]
pub(crate) enum Line {
    Remark,
    Buffer {
        length: usize,
        byte: u8,
    },
    Set {
        place: usize,
        byte: u8,
    },
    Copy {
        from: usize,
        count: usize,
        to: usize,
    },
    Entries {
        place: usize,
        first: usize,
        count: usize,
        code: u8,
    },
    Operation(Operation),
    Version(VersionOperation),
    Walk {
        place: usize,
        numbers: usize,
    },
    Gaps(GapLine),
    Move {
        upward: bool,
        room: usize,
        byte: u8,
    },
    Table(TableOperation),
    Unread,
}

pub(crate) fn read(row: &[u8]) -> Line {
    let row = Reader::new(row);
    match row.byte() {
        b'#' => Line::Remark,
        b'b' => buffer(row.after(b"buffer")),
        b's' => set_or_second(row.after(b"se")),
        b'c' => copy_or_check(row.after(b"c")),
        b'n' => whole(row.after(b"new"), Line::Operation(Operation::New)),
        b'r' => record(row.after(b"record")),
        b'a' => append_or_any(row.after(b"a")),
        b'e' => entries(row.after(b"entries")),
        b't' => table_or_to(row.after(b"t")),
        _ => Line::Unread,
    }
}

// By the third letter.
fn set_or_second(row: Reader) -> Line {
    match row.byte() {
        b'c' => version_lines::second(row.after(b"cond ")),
        _ => set(row.after(b"t")),
    }
}

// By the second letter.
fn copy_or_check(row: Reader) -> Line {
    match row.byte() {
        b'o' => copy(row.after(b"opy")),
        _ => whole(row.after(b"heck"), Line::Operation(Operation::Check)),
    }
}

fn append_or_any(row: Reader) -> Line {
    match row.byte() {
        b'n' => version_lines::any(row.after(b"ny ")),
        _ => append(row.after(b"ppend")),
    }
}

fn table_or_to(row: Reader) -> Line {
    match row.byte() {
        b'o' => version_lines::to(row.after(b"o")),
        _ => table_lines::read(row.after(b"able ")),
    }
}

// A line that ends after its parts.
pub(crate) fn whole(row: Reader, line: Line) -> Line {
    if row.ends() { line } else { Line::Unread }
}

// ---- what prepares the buffer

fn buffer(mut row: Reader) -> Line {
    let line = Line::Buffer {
        length: row.place(),
        byte: row.byte8(),
    };
    whole(row, line)
}

fn set(mut row: Reader) -> Line {
    let line = Line::Set {
        place: row.place(),
        byte: row.byte8(),
    };
    whole(row, line)
}

fn copy(mut row: Reader) -> Line {
    let line = Line::Copy {
        from: row.place(),
        count: row.place(),
        to: row.place(),
    };
    whole(row, line)
}

fn entries(mut row: Reader) -> Line {
    let line = Line::Entries {
        place: row.place(),
        first: row.place(),
        count: row.place(),
        code: row.byte8(),
    };
    whole(row, line)
}

// ---- the operations

fn record(mut row: Reader) -> Line {
    let operation = Operation::Record(row.place());
    whole(row, Line::Operation(operation))
}

fn append(mut row: Reader) -> Line {
    let Some(kind) = row.kind() else {
        return Line::Unread;
    };
    let date = row.date();
    whole(row, Line::Operation(Operation::Append { kind, date }))
}
