// Numbers and slices of a case. A number of several bytes has its low byte first.
ghost use Rattle.std.specs.Prelude.{◌≡◌, ◌≤◌, length, take};

use crate::calling::Numbers;
use std::io::Read;
use std::{array, io};

// Fills the slice, as far as the input goes.
pub(super) fn bytes<R: Read>(input: &mut R, room: &mut [u8]) -> io::Result<usize> {
    streams::fill(input, room)
}

// How many entries a slice is to have: what stands at a place of the header, at most what there is room for.
pub(super) fn count<T>(header: &[u8], at: usize, room: &[T]) -> usize
    ensures within { result ≤ length room.now }
    ensures long { result ≡ length (take result room.now) }
{
    room.len().min(messages::word(header, at) as usize)
}

// The number that stands in four bytes of the header.
fn number(header: &[u8], at: usize) -> u32
    requires { at ≤ 65535 }
{
    u32::from_le_bytes(array::from_fn(|i| messages::byte(header, at + i)))
}

pub(super) fn numbers(header: &[u8]) -> Numbers {
    Numbers {
        n: number(header, 1),
        m: number(header, 5),
        which: number(header, 9),
        poster: number(header, 13),
    }
}

// The values that lie in bytes, as many as there are bytes and room for.
fn unpack(bytes: &[u8], values: &mut [u16]) {
    for (value, pair) in values.iter_mut().zip(bytes.chunks_exact(2)) {
        *value = messages::word(pair, 0);
    }
}

// Fills a slice of values by way of bytes, two for each.
fn fill<R: Read>(input: &mut R, bytes: &mut [u8], room: &mut [u16]) -> io::Result<()> {
    let len = bytes.len().min(2 * room.len().min(2048));
    streams::fill(input, &mut bytes[..len])?;
    unpack(bytes, room);
    Ok(())
}

// Fills a slice of up to 2,048 values.
pub(super) fn values<R: Read>(input: &mut R, room: &mut [u16]) -> io::Result<()> {
    let mut bytes = [0u8; 4096];
    fill(input, &mut bytes, room)
}
