// Round 1: what a column sends each other one of its record, and which columns it agrees with.
ghost use Rattle.std.specs.Prelude.{◌≡◌, ◌+◌, ◌-◌, ◌*◌, ◌≤◌, ◌<◌, ◌++◌, length, drop};
ghost use Rattle.lists.specs.Lists.{all, list_of};
ghost use Rattle.sizes.specs.Sizes.{blocks, refusal as refusal_of_sizes};
ghost use Rattle.sizes.specs.Refusals.{number_in, Gives};
ghost use Rattle.messages.specs.Messages.{unless_refused};
ghost use Rattle.dispersal.specs.Dispersal.{exchanges, agreements as agreements_of, exchange_refusal};
ghost use Rattle.dispersal.specs.Laws.{paired, same_at, same_as, agrees_across};

use field::Field;
use sizes::numbers::Refusal;
use std::array;

// Writes the message to the column `to` to the front of a part of the outgoing slice: the values at the own point, then those at the
// receiver's. `words` are the codewords of the record.
fn send_one(n: u8, b: u16, words: &[u16], own: u8, to: u8, part: &mut [u16])
    requires { (refusal_of_sizes n 1 own ≡ 0) × (refusal_of_sizes n 1 to ≡ 0) × (32 * b ≤ length words.now) × (2 * b ≤ length part.old) }
    ensures { part.new ≡ list_of (paired b words.now own to) (2 * b) ++ drop (2 * b) part.old }
{
    let second = b as usize;
    codeword::write(n, b, words, own, part).unwrap();
    codeword::write(n, b, words, to, &mut part[second..]).unwrap();
}

// Writes the message to each of n columns, each through the part of the slice that starts at its place: so by number.
fn send_all(n: u8, m: u8, own: u8, bytes: [u8; 32], out: &mut [u16])
    requires { (refusal_of_sizes n m own ≡ 0) × (n * (2 * blocks n m) ≡ length out.old) }
    ensures { out.new ≡ exchanges n m own bytes }
{
    let b = sizes::blocks(n, m) as u16;
    let mut words = [Field::BLANK; 1024];
    codeword::codewords(n, m, bytes, &mut words).unwrap();
    for j in 0..n {
        let at = messages::place(j, 2 * b, 0);
        send_one(n, b, &words, own, j + 1, &mut out[at..]);
    }
}

// The refusal of a call on a slice of the exchange's messages: 1, 2, 3 for the sizes and the own number, 4 for its length.
fn refusal(n: u8, m: u8, own: u8, len: usize) -> Result<(), Refusal>
    ensures { number_in result ≡ exchange_refusal n m own len }
{
    sizes::refusal(n, m, own)?;
    messages::refusal(n, 2 * (sizes::blocks(n, m) as u16), len)
}

// Sends the exchange: to each column the values at the own point, one per block, then those at the receiver's. A refused call writes nothing.
pub fn send(n: u8, m: u8, own: u8, bytes: [u8; 32], out: &mut [u16]) -> Result<(), Refusal>
    ensures { (number_in result ≡ exchange_refusal n m own (length out.old))
        × (out.new ≡ unless_refused (exchange_refusal n m own (length out.old)) (exchanges n m own bytes) out.old) }
{
    refusal(n, m, own, out.len())?;
    send_all(n, m, own, bytes, out);
    Ok(())
}

// Whether the b values from place `at` on are what the codewords have at place i.
fn same_values(b: usize, words: &[u16], i: usize, inbox: &[u16], at: usize) -> bool
    requires { (i < 32) × (32 * b ≤ length words.now) × (at + b ≤ length inbox.now) }
    ensures { result ≡ all (same_at words.now i inbox.now at) b }
{
    (0..b).all(|k| inbox[at + k] == words[32 * k + i])
}

// Whether they are the first of `mine`, the values at the own point. By index, and not by `==` of slices: they lie side by side, so that eight at a
// time are looked at.
fn same_as(b: usize, mine: &[u16; 32], inbox: &[u16], at: usize) -> bool
    requires { (b ≤ 32) × (at + b ≤ length inbox.now) }
    ensures { result ≡ all (same_as mine.now inbox.now at) b }
{
    let mut same = true;
    for k in 0..b {
        same = same & (inbox[at + k] == mine[k]);
    }
    same
}

// Whether the column agrees with column i + 1: that one sent what it would have sent, had it the same record. With itself it always does.
fn agreement_at(
    n: u8,
    b: u16,
    own: u8,
    words: &[u16],
    mine: &[u16; 32],
    inbox: &[u16],
    i: u8,
) -> bool
    requires { (n ≤ 31) × (b ≤ 32) × (32 * b ≤ length words.now) × (n * (2 * b) ≡ length inbox.now) × (i ≤ 30) }
    ensures { result ≡ agrees_across n b own words.now mine.now inbox.now i }
{
    if n <= i {
        return false;
    }
    if i + 1 == own {
        return true;
    }
    let at = messages::place(i, 2 * b, 0);
    if !same_values(b as usize, words, i as usize, inbox, at) {
        return false;
    }
    same_as(b as usize, mine, inbox, at + b as usize)
}

// That of each column.
fn each_agreement(
    n: u8,
    b: u16,
    own: u8,
    words: &[u16],
    mine: &[u16; 32],
    inbox: &[u16],
) -> [bool; 31]
    requires { (n ≤ 31) × (b ≤ 32) × (32 * b ≤ length words.now) × (n * (2 * b) ≡ length inbox.now) }
    ensures { result ≡ list_of (agrees_across n b own words.now mine.now inbox.now) 31 }
{
    array::from_fn(move |i| agreement_at(n, b, own, words, mine, inbox, i as u8))
}

// The flags of all columns.
fn flags(n: u8, m: u8, own: u8, bytes: [u8; 32], inbox: &[u16]) -> [bool; 31]
    requires { (refusal_of_sizes n m own ≡ 0) × (n * (2 * blocks n m) ≡ length inbox.now) }
    ensures { result ≡ agreements_of n m own bytes inbox.now }
{
    let b = sizes::blocks(n, m) as u16;
    let mut words = [Field::BLANK; 1024];
    codeword::codewords(n, m, bytes, &mut words).unwrap();
    let mut mine = [Field::BLANK; 32];
    codeword::write(n, b, &words, own, &mut mine).unwrap();
    each_agreement(n, b, own, &words, &mine, inbox)
}

// Listens to the exchange: which columns the column agrees with, itself among them.
pub fn agreements(
    n: u8,
    m: u8,
    own: u8,
    bytes: [u8; 32],
    inbox: &[u16],
) -> Result<[bool; 31], Refusal>
    ensures { Gives result (exchange_refusal n m own (length inbox.now)) (agreements_of n m own bytes inbox.now) }
{
    refusal(n, m, own, inbox.len())?;
    Ok(flags(n, m, own, bytes, inbox))
}
