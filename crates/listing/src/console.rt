// What the programs do: one sheet from an input, its listing to an output. Where it is known what an input holds and what was written to an
// output, the contract speaks of those bytes. Of standard input and standard output nobody knows them: the programs only pass them.
ghost use Rattle.std.specs.Prelude.{OnOk, IfSome};
ghost use Rattle.std.specs.Io.KnownBytes.{Appends};
ghost use Rattle.listing.specs.Listing.{listing_of};

use super::{Printed, ROOM, of_input};
use protocols::Protocol;
use std::io;
use std::io::{Read, Write};

// Prints the listing of the wall that runs the protocol, or `refused` and a number.
pub fn list<R: Read, W: Write>(protocol: Protocol, input: &mut R, output: &mut W) -> io::Result<()>
    ensures { OnOk result (IfSome (R.remaining input.old)
        (λ sheet. Appends (W.contents output.old) (W.contents output.new) (listing_of protocol sheet))) }
{
    let mut room = [0u8; ROOM];
    let came = streams::fill(input, &mut room)?;
    let Printed { bytes, len } = of_input(protocol, &room, came);
    output.write_all(&bytes[..len])
}
