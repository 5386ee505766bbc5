// Runs the script of book operations and table operations that stands on standard input: each line is read, done on the one buffer,
// and told.
// `compare/README.md` has the format of the script and of what is told.
#![tactic(auto)]

ghost use Rattle.std.specs.Prelude.{◌≡◌, ◌≤◌, length};

use crate::lines::Line;
use book_versions::any;
use script::rooms::Rooms;
use script::{preparing, running};
use std::io;
use std::io::{Read, Write};

mod gaps;
mod lines;
mod operations;
mod setting;
mod table_lines;
mod tables;
mod telling;
mod version_lines;
mod versions;

fn main(rt: HostRuntime) -> io::Result<()> {
    let mut script = intake::room::<262144>();
    let mut buffers = intake::room::<262144>();
    let mut targets = intake::room::<262144>();
    let n = intake::read_full(&mut rt.reader(), &mut script)?;
    let mut rooms = Rooms::new(&mut buffers, &mut targets);
    running::run(&mut io::writer(&rt), &script[..n], |out, row| {
        step(out, row, &mut rooms)
    })
}

// Does one line. A line that cannot be done is told as such, which no expected output has. Whatever happens, at an error
// too, the room stays as long as it was, and the buffer within it.
fn step<W: Write>(out: &mut W, row: &[u8], rooms: &mut Rooms) -> io::Result<()>
    ensures room_kept { length rooms.new.room.now ≡ length rooms.old.room.now }
    ensures size_in_bounds { rooms.new.size ≤ length rooms.old.room.now }
{
    let buffer = &mut rooms.room[..rooms.size];
    match lines::read(row) {
        Line::Remark => script::telling::remark(out, row),
        Line::Buffer { length, byte } => {
            let done = rooms.start(length, byte);
            script::telling::unread_unless(out, row, done)
        }
        Line::Set { place, byte } => {
            let done = preparing::set_byte(buffer, place, byte);
            script::telling::unread_unless(out, row, done)
        }
        Line::Copy { from, count, to } => {
            let done = setting::copy(buffer, from, count, to);
            script::telling::unread_unless(out, row, done)
        }
        Line::Entries {
            place,
            first,
            count,
            code,
        } => {
            let done = preparing::entries(buffer, place, first, count, code);
            script::telling::unread_unless(out, row, done)
        }
        Line::Operation(operation) => {
            let told = operations::operate(buffer, operation);
            telling::tell(out, row, told, false, buffer)
        }
        Line::Version(operation) => {
            let told = versions::operate(buffer, operation);
            telling::tell(out, row, told, true, buffer)
        }
        Line::Walk { place, numbers } => walk(out, row, buffer, place, numbers),
        Line::Gaps(asked) => gaps::tell(out, row, buffer, asked),
        Line::Move { upward, room, byte } => moved(out, row, rooms, upward, room, byte),
        Line::Table(operation) => {
            let told = tables::operate(buffer, operation);
            script::telling::table(out, row, told, buffer)
        }
        Line::Unread => script::telling::unread(out, row),
    }
}

// The walk over a book, into so many numbers, each 7 before.
fn walk<W: Write>(
    out: &mut W,
    row: &[u8],
    book: &[u8],
    place: usize,
    numbers: usize,
) -> io::Result<()> {
    if 64 < numbers {
        return script::telling::unread(out, row);
    }
    let mut lent = [7u32; 64];
    let lent = &mut lent[..numbers];
    let told = operations::counted(any::records(book, place, lent));
    telling::before_lent(out, row, told)?;
    telling::numbers(out, lent)?;
    telling::after_lent(out, book)
}

// Moves the book in the buffer into a target of so many bytes, each this one before. Where that is done, the target is the buffer from then
// on.
fn moved<W: Write>(
    out: &mut W,
    row: &[u8],
    rooms: &mut Rooms,
    upward: bool,
    long: usize,
    byte: u8,
) -> io::Result<()>
    ensures room_kept { length rooms.new.room.now ≡ length rooms.old.room.now }
    ensures size_in_bounds { rooms.new.size ≤ length rooms.old.room.now }
{
    if rooms.room.len() < long || rooms.spare.len() < long {
        return script::telling::unread(out, row);
    }
    let target = &mut rooms.spare[..long];
    preparing::fill(target, byte);
    let told = versions::move_book(&rooms.room[..rooms.size], target, upward);
    telling::tell(out, row, told, false, target)?;
    if told.is_ok() {
        rooms.take(long);
    }
    Ok(())
}
