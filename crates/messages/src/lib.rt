// Messages of one round: what a value says, how messages lie in a slice by column number, and what a column hears, its own place
// being what it would send itself. What is not there is blank.
#![tactic(auto)]

ghost use Rattle.std.specs.Prelude.{◌≡◌, true, cond, ◌+◌, ◌*◌, ◌≤◌, ltb, leb, ◌++◌, length, get_or, drop};
ghost use Rattle.lists.specs.Lists.{bit, list_of};
ghost use Rattle.field.specs.Field.{blank};
ghost use Rattle.sizes.specs.Refusals.{number_in};
ghost use Rattle.messages.specs.Messages.{read_point, read_report, read_bit, read_byte, said, from, word as word_of, to_all, laid, written, put as put_of, refusal as refusal_of, unless_refused, to_all_refusal, heard as heard_of, heard_from, heard_of_all, times as times_of};

use field::Field;
use sizes::numbers::Refusal;
use std::array;

// A value below the limit; any other is blank.
fn read_below(limit: u16, v: u16) -> u16
    ensures { result ≡ cond (ltb v limit) v blank }
{
    if v < limit { v } else { Field::BLANK }
}

// A point, 0 to 256; any other value is blank.
#[tactic(auto, unfolding(crate::specs::Messages::read_point))]
pub fn read_point(v: u16) -> u16
    ensures { result ≡ read_point v }
{
    read_below(Field::MODULUS, v)
}

// A report, 1; any other value is blank.
#[tactic(auto, unfolding(crate::specs::Messages::read_report))]
pub fn read_report(v: u16) -> u16
    ensures { result ≡ read_report v }
{
    if v == 1 { v } else { Field::BLANK }
}

// A bit, 0 or 1; any other value is blank.
#[tactic(auto, unfolding(crate::specs::Messages::read_bit))]
pub fn read_bit(v: u16) -> u16
    ensures { result ≡ read_bit v }
{
    read_below(2, v)
}

// A byte of a poster's record: the value itself where it is 0 to 255, else blank.
#[tactic(auto, unfolding(crate::specs::Messages::read_byte))]
pub fn read_byte(v: u16) -> u16
    ensures { result ≡ read_byte v }
{
    read_below(256, v)
}

// Value k of a message; blank past its end.
#[tactic(auto, unfolding(crate::specs::Messages::said))]
pub fn value(message: &[u16], k: usize) -> u16
    ensures { result ≡ said message.now k }
{
    message.get(k).copied().unwrap_or(Field::BLANK)
}

// Byte p of a record or a sheet, counted from 0; 0 past its end.
pub fn byte(bytes: &[u8], p: usize) -> u8
    ensures { result ≡ get_or bytes.now p 0 }
{
    bytes.get(p).copied().unwrap_or(0)
}

// The value that lies in bytes from byte p on, low byte first; a byte past the end is 0.
#[tactic(auto, unfolding(crate::specs::Messages::word))]
pub fn word(bytes: &[u8], p: usize) -> u16
    ensures { result ≡ word_of bytes.now p }
{
    if bytes.len() <= p {
        return 0;
    }
    u16::from_le_bytes([byte(bytes, p), byte(bytes, p + 1)])
}

// A flag as a byte: 1 where it is set, else 0.
pub fn flag(set: bool) -> u8
    ensures { result ≡ bit set }
{
    u8::from(set)
}

// The place of value k of column j + 1's message, where messages have w values.
pub fn place(j: u8, w: u16, k: u16) -> usize
    ensures { result ≡ j * w + k }
{
    (j as usize) * (w as usize) + k as usize
}

// The refusal of a slice that is not as long as n messages of w values: 4.
#[tactic(auto, unfolding(crate::specs::Messages::refusal))]
pub fn refusal(n: u8, w: u16, len: usize) -> Result<(), Refusal>
    ensures { number_in result ≡ refusal_of 0 n w len }
{
    if len != place(n, w, 0) {
        return Err(Refusal::Length);
    }
    Ok(())
}

// Writes w values of a message, of which some may not be there. By itself: a form that serves both costs `write` a tenth more.
fn write_past(w: u16, message: &[u16], part: &mut [u16])
    requires { w ≤ length part.old }
    ensures { part.new ≡ list_of (said message.now) w ++ drop w part.old }
{
    for (k, x) in part[..w as usize].iter_mut().enumerate() {
        *x = value(message, k);
    }
}

// Copies to the front of a part. By a loop: `copy_from_slice` asks a board for memmove, which it need not have.
fn copy<T: Copy>(from: &[T], part: &mut [T])
    requires { length from.now ≤ length part.old }
    ensures { part.new ≡ from.now ++ drop (length from.now) part.old }
{
    for (k, x) in from.iter().enumerate() {
        part[k] = *x;
    }
}

// Writes a message of w values to the front of a part of the outgoing slice; refused with 4 where there is no room for it.
#[tactic(auto, unfolding(crate::specs::Messages::written, crate::specs::Messages::laid))]
pub fn write(w: u16, message: &[u16], part: &mut [u16]) -> Result<(), Refusal>
    ensures { (number_in result ≡ cond (leb w (length part.old)) 0 4) × (part.new ≡ written w message.now part.old) }
{
    if part.len() < w as usize {
        return Err(Refusal::Length);
    }
    match message.get(..w as usize) {
        Some(all) => copy(all, part),
        None => write_past(w, message, part),
    }
    Ok(())
}

// Writes bytes to the front of a part of a slice; refused with 4 where there is no room for them.
#[tactic(auto, unfolding(crate::specs::Messages::put))]
pub fn put(bytes: &[u8], part: &mut [u8]) -> Result<(), Refusal>
    ensures { (number_in result ≡ cond (leb (length bytes.now) (length part.old)) 0 4) × (part.new ≡ put_of bytes.now part.old) }
{
    if part.len() < bytes.len() {
        return Err(Refusal::Length);
    }
    copy(bytes, part);
    Ok(())
}

// A message of one value to each column that the slice has a place for. By a loop over the columns, and not by `fill`: each one's message is
// written through the part of the slice that starts at its place.
#[tactic(auto, using(lists::specs::Loops::rowed_fits, lists::specs::Loops::rowed_room))]
fn one_to_each(message: &[u16], out: &mut [u16])
    ensures { out.new ≡ to_all (length out.old) 1 message.now }
{
    let one = [value(message, 0)];
    for j in 0..out.len() {
        copy(&one, &mut out[j..]);
    }
}

// The same message of w values to each of n columns, each written through the part of the slice that starts at its place. Refused with 1
// for n outside 4 to 31, and with 4 for a slice of another length; a refused call writes nothing.
#[tactic(auto, using(lists::specs::Loops::rowed_fits))]
pub fn to_all(n: u8, w: u16, message: &[u16], out: &mut [u16]) -> Result<(), Refusal>
    ensures { (number_in result ≡ to_all_refusal n w (length out.old))
        × (out.new ≡ unless_refused (to_all_refusal n w (length out.old)) (to_all n w message.now) out.old) }
{
    sizes::refusal(n, 1, 1)?;
    refusal(n, w, out.len())?;
    if w == 1 {
        one_to_each(message, out);
        return Ok(());
    }
    // By index: of the parts that `chunks_exact_mut` lends nothing is known behind the loop.
    for j in 0..n {
        let at = place(j, w, 0);
        write(w, message, &mut out[at..]).unwrap();
    }
    Ok(())
}

// Value k from column j, where messages have w values; at its own place the column uses what it would send itself.
#[tactic(auto, unfolding(crate::specs::Messages::heard, crate::specs::Messages::said))]
pub fn heard(own: u8, mine: &[u16], w: u16, inbox: &[u16], j: u8, k: u16) -> u16
    ensures { result ≡ heard_of own mine.now w inbox.now j k }
{
    if j == own {
        return value(mine, k as usize);
    }
    value(inbox, place(j.saturating_sub(1), w, k))
}

// Value k from column i + 1 of n; blank past n.
#[tactic(auto, unfolding(crate::specs::Messages::heard_from))]
fn heard_from(n: u8, own: u8, mine: &[u16], w: u16, inbox: &[u16], k: u16, i: u8) -> u16
    requires { i ≤ 30 }
    ensures { result ≡ heard_from n own mine.now w inbox.now k i }
{
    if i < n {
        return heard(own, mine, w, inbox, i + 1, k);
    }
    Field::BLANK
}

// The one value from each of n columns: what came as it lies, then the own place.
fn one_of_all(n: u8, own: u8, mine: &[u16], inbox: &[u16]) -> [u16; 31]
    requires { (n ≤ 31) × (length inbox.now ≡ n) }
    ensures { result ≡ heard_of_all n own mine.now 1 inbox.now 0 }
{
    let mut values = [Field::BLANK; 31];
    copy(inbox, &mut values);
    if (1..=n).contains(&own) {
        values[own as usize - 1] = value(mine, 0);
    }
    values
}

// Value k from each of n columns, by column number; blank past n.
pub fn heard_of_all(n: u8, own: u8, mine: &[u16], w: u16, inbox: &[u16], k: u16) -> [u16; 31]
    ensures { result ≡ heard_of_all n own mine.now w inbox.now k }
{
    if n <= 31 && w == 1 && k == 0 && inbox.len() == n as usize {
        return one_of_all(n, own, mine, inbox);
    }
    array::from_fn(move |i| heard_from(n, own, mine, w, inbox, k, i as u8))
}

// How many of n columns sent v, of whose values some may not be there. By itself: a form that serves both costs `times` a tenth more.
fn times_past(n: u8, values: &[u16], v: u16) -> u16
    ensures { result ≡ times_of (from values.now) v n }
{
    let mut sum = 0u16;
    for i in 0..n {
        sum += (value(values, i as usize) == v) as u16;
    }
    sum
}

// How many of n columns sent v, where their values lie by column number. Counted in u16, which the machine does eight at a time.
pub fn times(n: u8, values: &[u16], v: u16) -> usize
    ensures { result ≡ times_of (from values.now) v n }
{
    let Some(all) = values.get(..n as usize) else {
        return times_past(n, values, v) as usize;
    };
    let mut sum = 0u16;
    for x in all {
        sum += (*x == v) as u16;
    }
    sum as usize
}
