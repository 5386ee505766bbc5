// Runs the script of listings in lent room that stands on standard input: each row is read, done to the input or asked of it, and told.
// `compare/README.md` has the format of the script and of what is told.
#![tactic(auto)]

ghost use Rattle.std.specs.Prelude.{◌≡◌, ◌≤◌, length};

use crate::lines::Line;
use listing::room;
use script::running;
use std::io;
use std::io::{Read, Write};

mod input;
mod lines;
mod telling;

fn main(rt: HostRuntime) -> io::Result<()> {
    let mut script = intake::room::<65536>();
    let mut input = intake::room::<786432>();
    let mut lent = intake::room::<786432>();
    let n = intake::read_full(&mut rt.reader(), &mut script)?;
    let mut rooms = Rooms {
        input: &mut input,
        size: 0,
        lent: &mut lent,
    };
    running::run(&mut io::writer(&rt), &script[..n], |out, row| {
        rooms.step(out, row)
    })
}

// The input is the front of the room for it, at first without bytes; a buffer that is lent is the front of the other room.
// Kept (point 6): (a) no heap: a `Vec`, which has its length, is none of this repository's.
#[derive(Drop)]
struct Rooms<'a> {
    input: &'a mut [u8],
    size: usize,
    lent: &'a mut [u8],
    ghost size_in_bounds: { size ≤ length input.now },
}

impl Rooms<'_> {
    // Does one row. A row that cannot be done is told as such, which no expected output has.
    fn step<W: Write>(&mut self, out: &mut W, row: &[u8]) -> io::Result<()>
        ensures input_kept { length self.new.input.now ≡ length self.old.input.now }
        ensures size_in_bounds { self.new.size ≤ length self.old.input.now }
    {
        match lines::read(row) {
            Line::Remark => script::telling::remark(out, row),
            Line::Clear => {
                self.size = 0;
                Ok(())
            }
            Line::Put { from, ends } => {
                let done = self.put(lines::text(row, from), ends);
                script::telling::unread_unless(out, row, done)
            }
            Line::Room(n) => telling::room(out, row, room::room_for(n)),
            Line::List { length, byte } => self.list(out, row, length, byte),
            Line::Unread => script::telling::unread(out, row),
        }
    }

    // Puts a text and so many line ends behind the input. Says whether there was room for them.
    fn put(&mut self, text: &[u8], ends: usize) -> bool
        ensures input_kept { length self.new.input.now ≡ length self.old.input.now }
        ensures size_in_bounds { self.new.size ≤ length self.old.input.now }
    {
        match input::put(&mut self.input[self.size..], text, ends) {
            Ok(n) => {
                self.size += n;
                true
            }
            Err(_) => false,
        }
    }

    // The listing of the input in a buffer of so many bytes, each this one before.
    fn list<W: Write>(&mut self, out: &mut W, row: &[u8], long: usize, byte: u8) -> io::Result<()>
        ensures input_kept { length self.new.input.now ≡ length self.old.input.now }
        ensures size_in_bounds { self.new.size ≤ length self.old.input.now }
    {
        if self.lent.len() < long {
            return script::telling::unread(out, row);
        }
        let buffer = &mut self.lent[..long];
        let answer = input::list(&self.input[..self.size], buffer, byte);
        telling::listing(out, row, answer, buffer)
    }
}
