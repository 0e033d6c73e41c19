// Reading a stream into a room of fixed size.
#![tactic(auto)]

ghost use Rattle.std.specs.Prelude.{◌≡◌, take, length, IfOk, IfSome};
ghost use Rattle.std.specs.Io.{ReadsAtMost};
ghost use Rattle.std.specs.Io.KnownBytes.{Consumes};

use std::io;
use std::io::Read;

// Fills the room from its front until it is full or the input ends, and returns how many bytes came. A failed read is an error, since its
// bytes would look like the end of the input; of what came before it nothing is then said.
pub fn fill<R: Read>(input: &mut R, room: &mut [u8]) -> io::Result<usize>
    ensures bound { ReadsAtMost result room.new }
    ensures front { IfOk result (λ came. IfSome (R.remaining input.old) (λ bytes. take came room.new ≡ take (length room.new) bytes)) }
    ensures rest { IfOk result (λ came. Consumes (R.remaining input.old) (R.remaining input.new) (take came room.new)) }
{
    let mut came = 0;
    while came < room.len() {
        let more = input.read(&mut room[came..])?;
        if more == 0 {
            break;
        }
        came += more;
    }
    Ok(came)
}
