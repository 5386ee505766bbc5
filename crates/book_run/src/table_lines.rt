// The lines of a script that are about tables, after the word `table`.
use crate::lines;
use crate::lines::Line;
use crate::tables::TableOperation;
use script::reader::Reader;

pub(crate) fn read(row: Reader) -> Line {
    match row.byte() {
        b'n' => asked(row.after(b"new"), TableOperation::New),
        b'c' => asked(row.after(b"check"), TableOperation::Check),
        b'e' => entry(row.after(b"entry")),
        b'd' => declare(row.after(b"declare")),
        b'r' => remove(row.after(b"remove")),
        b'l' => lookup(row.after(b"lookup")),
        _ => Line::Unread,
    }
}

fn asked(row: Reader, operation: TableOperation) -> Line {
    lines::whole(row, Line::Table(operation))
}

fn entry(mut row: Reader) -> Line {
    let operation = TableOperation::Entry(row.place());
    asked(row, operation)
}

fn declare(mut row: Reader) -> Line {
    let operation = TableOperation::Declare {
        field: row.word32(),
        code: row.word32(),
    };
    asked(row, operation)
}

fn remove(mut row: Reader) -> Line {
    let operation = TableOperation::Remove(row.word32());
    asked(row, operation)
}

fn lookup(mut row: Reader) -> Line {
    let operation = TableOperation::Lookup {
        field: row.word32(),
        game: row.word32(),
        number: row.whole32(),
    };
    asked(row, operation)
}
