// The rooms that a script is run in: its buffer, and what a move goes into.
ghost use Rattle.std.specs.Prelude.{◌≡◌, ◌≤◌, ◌&&◌, cond, leb, ◌++◌, length, replicate, drop};
ghost use Rattle.script.specs.Rooms.{fronted};

use crate::preparing;

// The buffer is the front of a room, at first empty; the target of a move is the front of the spare one.
// Kept (point 6): (a) no heap: a `Vec`, which has its length, is none of this repository's.
#[derive(Drop)]
pub struct Rooms<'a> {
    pub room: &'a mut [u8],
    pub size: usize,
    pub spare: &'a mut [u8],
    pub ghost size_in_bounds: { size ≤ length room.now },
}

impl<'a> Rooms<'a> {
    pub fn new(room: &'a mut [u8], spare: &'a mut [u8]) -> Self
        ensures room { result.room.now ≡ room.old }
        ensures size { result.size ≡ 0 }
        ensures spare { result.spare.now ≡ spare.old }
    {
        Rooms {
            room,
            size: 0,
            spare,
        }
    }

    // A buffer of so many bytes, each this one. Says whether there is room for it.
    pub fn start(&mut self, long: usize, byte: u8) -> bool
        ensures value { result ≡ leb long (length self.old.room.now) }
        ensures room_kept { length self.new.room.now ≡ length self.old.room.now }
        ensures room_after { self.new.room.now ≡ cond result (replicate long byte ++ drop long self.old.room.now) self.old.room.now }
        ensures size_after { self.new.size ≡ cond result long self.old.size }
        ensures spare_after { self.new.spare.now ≡ self.old.spare.now }
    {
        if self.room.len() < long {
            return false;
        }
        preparing::fill(&mut self.room[..long], byte);
        self.size = long;
        true
    }

    // A target of so many bytes, as the buffer from then on.
    pub fn take(&mut self, long: usize)
        ensures room_kept { length self.new.room.now ≡ length self.old.room.now }
        ensures room_after { self.new.room.now ≡ cond (leb long (length self.old.room.now) && leb long (length self.old.spare.now)) (fronted long self.old.spare.now self.old.room.now) self.old.room.now }
        ensures size_after { self.new.size ≡ cond (leb long (length self.old.room.now) && leb long (length self.old.spare.now)) long self.old.size }
        ensures spare_after { self.new.spare.now ≡ self.old.spare.now }
    {
        if long <= self.room.len() && long <= self.spare.len() {
            let target = &mut self.spare[..long];
            preparing::put(&mut self.room[..long], target);
            self.size = long;
        }
    }

    // Exchanges the bytes of the buffer and as many of the spare room. Says whether that has so many.
    pub fn swap(&mut self) -> bool
        ensures value { result ≡ leb self.old.size (length self.old.spare.now) }
        ensures room_kept { length self.new.room.now ≡ length self.old.room.now }
        ensures room_after { self.new.room.now ≡ cond result (fronted self.old.size self.old.spare.now self.old.room.now) self.old.room.now }
        ensures size_after { self.new.size ≡ self.old.size }
        ensures spare_after { self.new.spare.now ≡ cond result (fronted self.old.size self.old.room.now self.old.spare.now) self.old.spare.now }
    {
        if self.spare.len() < self.size {
            return false;
        }
        self.room[..self.size].swap_with_slice(&mut self.spare[..self.size]);
        true
    }
}
