// The line of a case. It is put together in a text and written at once, since a system call for each digit would be slow.
use arrayvec::ArrayVec;
use std::io;
use std::io::Write;

// Room for the longest line: a number, three spaces, 4,096 digits of bytes, 8,192 and 64 of values, and a newline.
type Text = ArrayVec<u8, 12400>;

const DIGITS: [u8; 16] = *b"0123456789abcdef";

// A byte as two digits, out of a table: by `{:02x}` a long line takes five times as long.
fn put_hex(text: &mut Text, byte: u8) {
    let _ = text.try_push(DIGITS[(byte / 16) as usize]);
    let _ = text.try_push(DIGITS[(byte % 16) as usize]);
}

// A space and the bytes.
fn put_bytes(text: &mut Text, bytes: &[u8]) {
    let _ = text.try_push(b' ');
    for byte in bytes {
        put_hex(text, *byte);
    }
}

// A space and the values, each four digits.
fn put_values(text: &mut Text, values: &[u16]) {
    let _ = text.try_push(b' ');
    for value in values {
        put_hex(text, (*value / 256) as u8);
        put_hex(text, (*value % 256) as u8);
    }
}

// The answer, the slices and a newline. The text has room for it: no slice of a case is longer than its room.
pub(super) fn line<W: Write>(
    output: &mut W,
    answer: usize,
    b: &[u8],
    v: &[u16],
    w: &[u16],
) -> io::Result<()> {
    let mut text = Text::new();
    write!(text, "{answer}")?;
    put_bytes(&mut text, b);
    put_values(&mut text, v);
    put_values(&mut text, w);
    let _ = text.try_push(b'\n');
    output.write_all(text.as_slice())
}
