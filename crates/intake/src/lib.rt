// Reads what a program is given into a room that is lent, so that no program allocates.
#![tactic(auto)]

ghost use Rattle.std.specs.Prelude.{◌≡◌, ◌≤◌, ◌<◌, length, take, IfOk, OnOk, OnErr};
ghost use Rattle.std.specs.Io.KnownBytes.{Appends, Consumes, IsAtEnd};
ghost use Rattle.intake.specs.Rooms.{zeros};

use std::io;
use std::io::{Read, Write};

// A room of so many bytes, each 0.
pub fn room<const N: usize>() -> [u8; N]
    ensures { result ≡ zeros N }
{
    [0u8; N]
}

// Reads until the room is full or the input ends, and gives how many bytes it put at the front of the room. What stands behind these in the
// input is not read. The only errors are the reader's.
pub fn read_full<R: Read>(reader: &mut R, room: &mut [u8]) -> io::Result<usize>
    ensures ok { IfOk result (λ n. n ≤ length room.old) }
    ensures bytes { IfOk result (λ n. Consumes (R.remaining reader.old) (R.remaining reader.new) (take n room.new)) }
    ensures all { IfOk result (λ n. n < length room.old → IsAtEnd (R.remaining reader.new)) }
    ensures err { OnErr result (length room.new ≡ length room.old) }
{
    let mut filled = 0;
    // Kept (point 3): (d) each turn goes as far as the reader gives, which no `for` counts, and `read_exact` says nothing of a short input.
    while filled < room.len() {
        let n = reader.read(&mut room[filled..])?;
        if n == 0 {
            return Ok(filled);
        }
        filled += n;
    }
    Ok(filled)
}

// What a program does that answers its input as a whole: reads it into a room, has it answered in another, and writes that answer.
pub fn answer<R: Read, W: Write, F: FnOnce(&[u8], &mut [u8]) -> usize>(
    reader: &mut R,
    writer: &mut W,
    input: &mut [u8],
    output: &mut [u8],
    answer: F,
) -> io::Result<()>
    requires callable { (s : _) (o : _) → length o.now ≡ length output.old → F.pre answer s o }
    requires within { (s : _) (o : _) (m : _) (p : _) → length o.now ≡ length output.old → F.post answer s o m p → m ≤ length output.old }
    ensures { OnOk result ((s : _) × (o : _) × (m : _) × (p : _) × (s.now ≡ take (length s.now) input.new)
        × Consumes (R.remaining reader.old) (R.remaining reader.new) s.now
        × (length s.now < length input.old → IsAtEnd (R.remaining reader.new))
        × (o.now ≡ output.old) × F.post answer s o m p × (p.now ≡ output.new)
        × Appends (W.contents writer.old) (W.contents writer.new) (take m output.new)) }
{
    let n = read_full(reader, input)?;
    let m = answer(&input[..n], output);
    writer.write_all(&output[..m])
}
