// The lines of a script that are about version 2, either version, the gap report and the moves, after their first word.
use crate::gaps::GapLine;
use crate::lines;
use crate::lines::Line;
use crate::versions::VersionOperation;
use script::reader::Reader;

fn asked(row: Reader, operation: VersionOperation) -> Line {
    lines::whole(row, Line::Version(operation))
}

// ---- version 2

pub(crate) fn second(row: Reader) -> Line {
    match row.byte() {
        b'n' => asked(row.after(b"new"), VersionOperation::New),
        b'c' => asked(row.after(b"check"), VersionOperation::Check),
        b'r' => record(row.after(b"record")),
        b'a' => append(row.after(b"append")),
        _ => Line::Unread,
    }
}

fn record(mut row: Reader) -> Line {
    let operation = VersionOperation::Record(row.place());
    asked(row, operation)
}

fn append(mut row: Reader) -> Line {
    let Some(kind) = row.kind() else {
        return Line::Unread;
    };
    let operation = VersionOperation::Append {
        kind,
        field: row.word16(),
        date: row.date(),
    };
    asked(row, operation)
}

// ---- either version

pub(crate) fn any(row: Reader) -> Line {
    match row.byte() {
        b'c' => asked(row.after(b"check"), VersionOperation::AnyCheck),
        b'f' => figures(row.after(b"figures")),
        _ => records_or_report(row.after(b"re")),
    }
}

// By the third letter of the word after `any`.
fn records_or_report(row: Reader) -> Line {
    match row.byte() {
        b'p' => report(row.after(b"port")),
        _ => record_or_records(row.after(b"cord")),
    }
}

// By the letter after `record`.
fn record_or_records(row: Reader) -> Line {
    match row.byte() {
        b's' => walk(row.after(b"s")),
        _ => any_record(row),
    }
}

fn any_record(mut row: Reader) -> Line {
    let operation = VersionOperation::AnyRecord(row.place());
    asked(row, operation)
}

// Of more numbers than there are to lend it is told as unread.
fn walk(mut row: Reader) -> Line {
    let line = Line::Walk {
        place: row.place(),
        numbers: row.place(),
    };
    lines::whole(row, line)
}

fn report(mut row: Reader) -> Line {
    let asked = GapLine::Report(row.place());
    lines::whole(row, Line::Gaps(asked))
}

fn figures(mut row: Reader) -> Line {
    let asked = GapLine::Figures(row.place());
    lines::whole(row, Line::Gaps(asked))
}

// ---- the moves

pub(crate) fn to(mut row: Reader) -> Line {
    let upward = match row.place() {
        1 => false,
        2 => true,
        _ => return Line::Unread,
    };
    let line = Line::Move {
        upward,
        room: row.place(),
        byte: row.byte8(),
    };
    lines::whole(row, line)
}
