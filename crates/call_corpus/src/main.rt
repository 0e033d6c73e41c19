// Plays stored calls on bytes from standard input and prints a line for each: the number that the call answered, and the slices that a call can
// write as they are after it, in hexadecimal digits. A case is a header of 25 bytes and the slices. The header has the kind of the call in byte 0,
// four numbers of four bytes from byte 1 on, and from byte 17 on the lengths of the slices a, b, v and w in two bytes each, v and w counted in
// values of two bytes. Every number has its low byte first.
#![tactic(auto)]

mod calling;
mod printing;
mod reading;

use std::io;
use std::io::{Read, Write};

// Plays a case: of each slice's room as much is lent as the header says.
fn play<R: Read, W: Write>(
    header: &[u8],
    a: &mut [u8],
    b: &mut [u8],
    v: &mut [u16],
    w: &mut [u16],
    input: &mut R,
    output: &mut W,
) -> io::Result<()> {
    let a_len = reading::count(header, 17, a);
    let b_len = reading::count(header, 19, b);
    let v_len = reading::count(header, 21, v);
    let w_len = reading::count(header, 23, w);
    answer(
        header,
        &mut a[..a_len],
        &mut b[..b_len],
        &mut v[..v_len],
        &mut w[..w_len],
        input,
        output,
    )
}

// The slices have the lengths of the case, also where one is wrong for the call: it is the call that refuses.
fn answer<R: Read, W: Write>(
    header: &[u8],
    a: &mut [u8],
    b: &mut [u8],
    v: &mut [u16],
    w: &mut [u16],
    input: &mut R,
    output: &mut W,
) -> io::Result<()> {
    reading::bytes(input, a)?;
    reading::bytes(input, b)?;
    reading::values(input, v)?;
    reading::values(input, w)?;
    let number = calling::call(
        messages::byte(header, 0),
        reading::numbers(header),
        a,
        b,
        v,
        w,
    );
    printing::line(output, number, b, v, w)
}

// Plays one case; false where the input has no whole header left. The room is new for each case, so that none sees what another left.
fn play_next<R: Read, W: Write>(input: &mut R, output: &mut W) -> io::Result<bool> {
    let mut header = [0u8; 25];
    if reading::bytes(input, &mut header)? < 25 {
        return Ok(false);
    }
    let mut a = [0u8; 43008];
    let mut b = [0u8; 2048];
    let mut v = [0u16; 2048];
    let mut w = [0u16; 16];
    play(&header, &mut a, &mut b, &mut v, &mut w, input, output)?;
    Ok(true)
}

// Plays to the end of the input. A loop has to be one that ends, so it counts: to more than any store of cases has.
fn main(rt: HostRuntime) -> io::Result<()> {
    let mut input = rt.stdin();
    let mut output = rt.stdout();
    for _ in 0..1000000u32 {
        if !play_next(&mut input, &mut output)? {
            break;
        }
    }
    Ok(())
}
