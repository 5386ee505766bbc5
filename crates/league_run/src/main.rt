// Runs the script of operations on tables of two leagues that stands on standard input: each line is read, done on the buffer in use, and
// told.
// `compare/README.md` has the format of the script and of what is told.
#![tactic(auto)]

ghost use Rattle.std.specs.Prelude.{◌≡◌, ◌≤◌, length};

use crate::lines::Line;
use script::rooms::Rooms;
use script::{preparing, running, table_answers, telling};
use std::io;
use std::io::{Read, Write};

mod lines;
mod operations;
mod setting;

fn main(rt: HostRuntime) -> io::Result<()> {
    let mut script = intake::room::<131072>();
    let mut here = intake::room::<131072>();
    let mut there = intake::room::<131072>();
    let n = intake::read_full(&mut rt.reader(), &mut script)?;
    let mut rooms = Rooms::new(&mut here, &mut there);
    running::run(&mut io::writer(&rt), &script[..n], |out, row| {
        step(out, row, &mut rooms)
    })
}

// Does one line. A line that cannot be done is told as such, which no expected output has. Whatever happens, at an error
// too, the room stays as long as it was, and the buffer within it.
fn step<W: Write>(out: &mut W, row: &[u8], rooms: &mut Rooms) -> io::Result<()>
    ensures room_kept { length rooms.new.room.now ≡ length rooms.old.room.now }
    ensures size_in_bounds { rooms.new.size ≤ length rooms.old.room.now }
{
    match lines::read(row) {
        Line::Remark => telling::remark(out, row),
        Line::Buffer { length, byte } => {
            let done = rooms.start(length, byte);
            telling::unread_unless(out, row, done)
        }
        Line::Setting(change) => {
            let done = setting::set(&mut rooms.room[..rooms.size], change);
            telling::unread_unless(out, row, done)
        }
        Line::Swap => {
            let done = rooms.swap();
            telling::unread_unless(out, row, done)
        }
        Line::Operation(operation) => {
            let buffer = &mut rooms.room[..rooms.size];
            let told = operations::operate(buffer, operation);
            telling::table(out, row, told, buffer)
        }
        Line::Move { length, byte } => moved(out, row, rooms, length, byte),
        Line::Unread => telling::unread(out, row),
    }
}

// Moves the table of version 1 in the buffer into a target of so many bytes, each this one before. Where that is done, the target is the
// buffer from then on.
fn moved<W: Write>(
    out: &mut W,
    row: &[u8],
    rooms: &mut Rooms,
    long: usize,
    byte: u8,
) -> io::Result<()>
    ensures room_kept { length rooms.new.room.now ≡ length rooms.old.room.now }
    ensures size_in_bounds { rooms.new.size ≤ length rooms.old.room.now }
{
    if rooms.room.len() < long || rooms.spare.len() < long {
        return telling::unread(out, row);
    }
    let target = &mut rooms.spare[..long];
    preparing::fill(target, byte);
    let told = operations::move_table(&rooms.room[..rooms.size], target);
    telling::table(out, row, told, target)?;
    if table_answers::is_number(told) {
        rooms.take(long);
    }
    Ok(())
}
