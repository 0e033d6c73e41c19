// Plays stored walls from standard input and prints their listings, one after the other. A case is one byte for the protocol (0: an agreement,
// anything else: a posting), one for the poster's number, two for the sheet's length, the low one first, and the sheet.
#![tactic(auto)]

use protocols::Protocol;
use std::io;
use std::io::{Read, Write};

// Reads a sheet of the slice's length and prints its listing. A sheet that the input ends within is listed as far as it goes.
fn list<R: Read, W: Write>(
    protocol: Protocol,
    sheet: &mut [u8],
    input: &mut R,
    output: &mut W,
) -> io::Result<()> {
    let got = streams::fill(input, sheet)?;
    let mut text = [0u8; listing::MOST];
    let written = listing::write(protocol, &sheet[..got], &mut text);
    output.write_all(&text[..written])
}

// Plays one case; false where the input has no whole header left.
fn play<R: Read, W: Write>(input: &mut R, output: &mut W) -> io::Result<bool> {
    let mut header = [0u8; 4];
    if streams::fill(input, &mut header)? < 4 {
        return Ok(false);
    }
    let mut sheet = [0u8; 65536];
    let len = messages::word(&header, 2) as usize;
    list(
        protocols::protocol_of(header[0], header[1]),
        &mut sheet[..len],
        input,
        output,
    )?;
    Ok(true)
}

// Plays to the end of the input. A loop has to be one that ends, so it counts: to more than any store of cases has.
fn main(rt: HostRuntime) -> io::Result<()> {
    let mut input = rt.stdin();
    let mut output = rt.stdout();
    for _ in 0..1000000u32 {
        if !play(&mut input, &mut output)? {
            break;
        }
    }
    Ok(())
}
