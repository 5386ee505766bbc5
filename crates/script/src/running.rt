// A script, run line by line.
ghost use Rattle.script.specs.Running.{CallsAt, InTurn};

use std::io;
use std::io::Write;

// Does each row in turn, up to the first that fails.
pub fn run<W: Write, F: FnMut(&mut W, &[u8]) -> io::Result<()>>(
    out: &mut W,
    script: &[u8],
    mut step: F,
) -> io::Result<()>
    requires { F.IsAlwaysCallable step }
    ensures { (n : _) × (last : F) × InTurn (CallsAt (λ f o s r o' f'. F.step f o s r o' f')) n step out.old script.now result last out.new }
{
    // To do (point 3): `split_inclusive` of slices gives the rows; its contract is to be met with that of `next_line`.
    let mut at = 0;
    while at < script.len() {
        let end = rows::next_line(script, at);
        step(out, &script[at..end])?;
        at = end;
    }
    Ok(())
}
