// A record as a codeword: its values at the point of a column, one for each block, and at the points of all columns at once. Each call answers, or
// refuses with a number.
#![tactic(auto)]

ghost use Rattle.std.specs.Prelude.{◌≡◌, ◌++◌, ◌+◌, ◌*◌, ◌≤◌, ◌<◌, length, drop};
ghost use Rattle.lists.specs.Lists.{list_of, rows_of};
ghost use Rattle.sizes.specs.Sizes.{refusal as refusal_of_sizes};
ghost use Rattle.sizes.specs.Refusals.{number_in, Gives};
ghost use Rattle.field.specs.Field.{element};
ghost use Rattle.block.specs.Block.{part, value as value_of};
ghost use Rattle.messages.specs.Messages.{laid, unless_refused};
ghost use Rattle.codeword.specs.Codeword.{values as values_of, codewords as codewords_of, codewords_refusal, across, across_refusal, written_across};
ghost use Rattle.codeword.specs.Words.{value_in, row_at};

use field::Field;
use sizes::numbers::Refusal;

// The coefficients of the block that starts at `from`, as many as the largest block has. One by one: `from_fn` makes
// `values` slower by a quarter at n = 31 and two thirds at n = 4.
fn coefficients(bytes: &[u8; 32], from: usize) -> [u16; 4]
    requires { from ≤ 65535 }
    ensures { result ≡ part bytes.now from 4 }
{
    [
        messages::byte(bytes, from) as u16,
        messages::byte(bytes, from + 1) as u16,
        messages::byte(bytes, from + 2) as u16,
        messages::byte(bytes, from + 3) as u16,
    ]
}

// The value at x of a polynomial of one to four coefficients. Their number is handed on as a literal: then the compiler writes the recursion out.
fn sized_value(c: &[u16; 4], size: u8, x: Field) -> Field
    requires { (1 ≤ size) × (size ≤ 4) }
    ensures { result ≡ element (value_of (part c.now 0 size) x.0) }
{
    match size {
        1 => block::value(c, 1, x),
        2 => block::value(c, 2, x),
        3 => block::value(c, 3, x),
        _ => block::value(c, 4, x),
    }
}

// The value of block k, of b blocks of `size` bytes, at the point x; blank past the blocks.
fn value(b: usize, size: u8, bytes: &[u8; 32], x: u16, k: usize) -> u16
    requires { (1 ≤ size) × (size ≤ 4) × (k ≤ 31) }
    ensures { result ≡ value_in b size bytes.now x k }
{
    if k < b {
        let c = coefficients(bytes, k * (size as usize));
        return sized_value(&c, size, Field(x)).0;
    }
    Field::BLANK
}

// The values of a record of m bytes at the point x, one for each block; blank past the blocks. By index: `from_fn` is slower by 4 %.
fn values_of(n: u8, m: u8, bytes: &[u8; 32], x: u16) -> [u16; 32]
    requires { refusal_of_sizes n m 1 ≡ 0 }
    ensures { result ≡ laid 32 (values_of n m bytes.now x) }
{
    let b = sizes::blocks(n, m);
    let size = sizes::degree(n) as u8 + 1;
    let mut all = [Field::BLANK; 32];
    for k in 0..32 {
        all[k] = value(b, size, bytes, x, k);
    }
    all
}

// The values of a record of m bytes at the point of column `number`, one for each block, blank past the blocks. Refused with 1, 2, 3 for the sizes
// and the number.
pub fn values(n: u8, m: u8, bytes: [u8; 32], number: u8) -> Result<[u16; 32], Refusal>
    ensures { Gives result (refusal_of_sizes n m number) (laid 32 (values_of n m bytes number)) }
{
    sizes::refusal(n, m, number)?;
    Ok(values_of(n, m, &bytes, number as u16))
}

// The codeword of block k, of b blocks of `size` bytes: its values at the points 1 to 32; blank past the blocks.
fn codeword_of(b: usize, size: u8, bytes: &[u8; 32], k: usize) -> [u16; 32]
    requires { (size ≤ 4) × (k ≤ 31) }
    ensures { result ≡ list_of (row_at b size bytes.now (k + 1)) 32 }
{
    if b <= k {
        return [Field::BLANK; 32];
    }
    let c = coefficients(bytes, k * (size as usize));
    block::word(&c, size)
}

// The codewords of 32 blocks, one behind the other. By number: each is written through the part that starts at its place.
fn rows(b: usize, size: u8, bytes: &[u8; 32], all: &mut [u16])
    requires { (size ≤ 4) × (length all.old ≡ 1024) }
    ensures { all.new ≡ rows_of (row_at b size bytes.now) 32 32 }
{
    for k in 0..32 {
        let at = 32 * k;
        let word = codeword_of(b, size, bytes, k);
        messages::write(32, &word, &mut all[at..]).unwrap();
    }
}

// The codewords of a record of m bytes. The size of a block is handed on as a literal: then the machine does eight points at a time.
fn fill(n: u8, m: u8, bytes: &[u8; 32], all: &mut [u16])
    requires { (refusal_of_sizes n m 1 ≡ 0) × (length all.old ≡ 1024) }
    ensures { all.new ≡ codewords_of n m bytes.now }
{
    let b = sizes::blocks(n, m);
    match sizes::degree(n) {
        0 => rows(b, 1, bytes, all),
        1 => rows(b, 2, bytes, all),
        2 => rows(b, 3, bytes, all),
        _ => rows(b, 4, bytes, all),
    }
}

// Writes the codewords of a record of m bytes to 1024 places: of each block its values at the points 1 to 32; blank past the blocks. Refused with 1
// and 2 for the sizes, and with 4 for a slice of another length; a refused call writes nothing.
pub fn codewords(n: u8, m: u8, bytes: [u8; 32], all: &mut [u16]) -> Result<(), Refusal>
    ensures { (number_in result ≡ codewords_refusal n m (length all.old))
        × (all.new ≡ unless_refused (codewords_refusal n m (length all.old)) (codewords_of n m bytes) all.old) }
{
    sizes::refusal(n, m, 1)?;
    messages::refusal(32, 32, all.len())?;
    fill(n, m, &bytes, all);
    Ok(())
}

// The refusal of what b codewords have for a column: 1 and 3 for n and the number, 4 where there are not so many codewords or no room.
fn refusal(n: u8, b: u16, number: u8, words: usize, room: usize) -> Result<(), Refusal>
    ensures { number_in result ≡ across_refusal n b number words room }
{
    sizes::refusal(n, 1, number)?;
    if words < 32 * (b as usize) || room < b as usize {
        return Err(Refusal::Length);
    }
    Ok(())
}

// Writes what b codewords have at place i to the front of a part of the outgoing slice.
fn write_across(b: u16, words: &[u16], i: usize, part: &mut [u16])
    requires { (i < 32) × (32 * b ≤ length words.now) × (b ≤ length part.old) }
    ensures { part.new ≡ list_of (across words.now i) b ++ drop b part.old }
{
    for (k, x) in part[..b as usize].iter_mut().enumerate() {
        *x = words[32 * k + i];
    }
}

// Writes what b codewords have for column `number` of n to the front of a part of the outgoing slice. Refused with 1 for n outside 4 to 31, with 3 for
// a number outside 1 to n, and with 4 where there are not so many codewords or no room for the values; a refused call writes nothing.
pub fn write(n: u8, b: u16, words: &[u16], number: u8, part: &mut [u16]) -> Result<(), Refusal>
    ensures { (number_in result ≡ across_refusal n b number (length words.now) (length part.old))
        × (part.new ≡ written_across n b words.now number part.old) }
{
    refusal(n, b, number, words.len(), part.len())?;
    write_across(b, words, (number - 1) as usize, part);
    Ok(())
}
