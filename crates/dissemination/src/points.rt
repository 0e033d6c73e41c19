// The first round: a column that has a record to spread sends each column its points, and every column keeps those it received often.
ghost use Rattle.std.specs.Prelude.{◌≡◌, true, cond, ◌+◌, ◌*◌, ◌≤◌, ◌<◌, ltb, length, replicate};
ghost use Rattle.lists.specs.Lists.{list_of};
ghost use Rattle.field.specs.Field.{blank};
ghost use Rattle.sizes.specs.Sizes.{blocks, refusal as refusal_of_sizes};
ghost use Rattle.sizes.specs.Refusals.{number_in, Gives};
ghost use Rattle.messages.specs.Messages.{from, unless_refused, times as times_of};
ghost use Rattle.dissemination.specs.Dissemination.{points_to_all, kept_point, kept_points, round_refusal};
ghost use Rattle.dissemination.specs.Kept.{placed, weight as weight_of};
ghost use Rattle.dissemination.specs.Laws.{heard_of, kept_from};

use super::{refusal, silenced_unless};
use field::Field;
use sizes::numbers::Refusal;
use std::array;

// Writes the points of each of n columns, each through the part of the slice that starts at its place: so by number.
fn send_all(n: u8, m: u8, bytes: [u8; 32], out: &mut [u16])
    requires { (refusal_of_sizes n m 1 ≡ 0) × (n * blocks n m ≡ length out.old) }
    ensures { out.new ≡ points_to_all n m true bytes }
{
    let b = sizes::blocks(n, m) as u16;
    let mut words = [Field::BLANK; 1024];
    codeword::codewords(n, m, bytes, &mut words).unwrap();
    for j in 0..n {
        let at = messages::place(j, b, 0);
        codeword::write(n, b, &words, j + 1, &mut out[at..]).unwrap();
    }
}

// Sends each column its points, one per block, or blanks where the column does not speak. A refused call writes nothing.
pub fn send(n: u8, m: u8, speaks: bool, bytes: [u8; 32], out: &mut [u16]) -> Result<(), Refusal>
    ensures { (number_in result ≡ round_refusal n m 1 (length out.old))
        × (out.new ≡ unless_refused (round_refusal n m 1 (length out.old)) (points_to_all n m speaks bytes) out.old) }
{
    if !speaks {
        return super::decoding::send(n, m, false, [Field::BLANK; 32], out);
    }
    refusal(n, m, 1, out.len())?;
    send_all(n, m, bytes, out);
    Ok(())
}

// Value k from column i + 1, of messages of b values; at its own place the column uses `mine`.
fn heard_at(own: u8, mine: u16, b: u16, inbox: &[u16], k: u16, i: u8) -> u16
    requires { (i ≤ 30) × (i * b + k < length inbox.now) }
    ensures { result ≡ heard_of own mine b inbox.now k (i + 1) }
{
    if i + 1 == own {
        return mine;
    }
    let at = messages::place(i, b, k);
    inbox[at]
}

// Value k from each of n columns, in 32 places that were blank; blank past n. In the slice they lie apart, and each count looks at all of them. By
// number: an array made at once would read 32 places for four columns too.
fn gather(n: u8, own: u8, mine: u16, b: u16, inbox: &[u16], k: u16, values: &mut [u16; 32])
    requires { (n ≤ 31) × (k < b) × (n * b ≡ length inbox.now) × (values.old ≡ replicate 32 blank) }
    ensures { values.new ≡ list_of (placed n (heard_of own mine b inbox.now k)) 32 }
{
    for i in 0..n {
        let at = i as usize;
        values[at] = heard_at(own, mine, b, inbox, k, i);
    }
}

// How many of the values are v. All 32 places are looked at, however many columns there are, so that the machine does eight at a time; by a sum in
// u16, which an iterator's is slower than.
fn times(values: [u16; 32], v: u16) -> usize
    ensures { result ≡ times_of (from values) v 32 }
{
    let mut sum = 0u16;
    for i in 0..32 {
        sum += messages::flag(values[i] == v) as u16;
    }
    sum as usize
}

// How often v was received, where it is a point below the best so far; else 0.
#[tactic(auto, unfolding(crate::specs::Kept::weight))]
fn weight(values: [u16; 32], best: u16, v: u16) -> usize
    ensures { result ≡ weight_of 32 (from values) best v }
{
    if v < best && v < Field::MODULUS {
        times(values, v)
    } else {
        0
    }
}

// v if it was received more than t times, else the best so far.
fn heavier(t: usize, c: usize, best: u16, v: u16) -> u16
    ensures { result ≡ cond (ltb t c) v best }
{
    if t < c { v } else { best }
}

// The smallest point that was received at least t + 1 times, blank if none was. A point that all but t columns sent leaves no room for another. By
// number, since the places past n are not asked.
fn kept_point(n: u8, own: u8, mine: u16, b: u16, inbox: &[u16], k: u16) -> u16
    requires { (n ≤ 31) × (k < b) × (n * b ≡ length inbox.now) }
    ensures { result ≡ kept_point n (heard_of own mine b inbox.now k) }
{
    let t = sizes::faults(n);
    let mut values = [Field::BLANK; 32];
    gather(n, own, mine, b, inbox, k, &mut values);
    let mut best = Field::BLANK;
    for i in 0..n {
        let at = i as usize;
        let v = values[at];
        let c = weight(values, best, v);
        if n as usize <= c + t {
            return v;
        }
        best = heavier(t, c, best, v);
    }
    best
}

// The kept point of block k, where `mine` is what the column would send itself; blank past the blocks. A value that is no point is never kept,
// so none has to be read first.
fn kept_at(n: u8, own: u8, mine: &[u16], b: u16, inbox: &[u16], k: u16) -> u16
    requires { (n ≤ 31) × (n * b ≡ length inbox.now) }
    ensures { result ≡ kept_from n own mine.now b inbox.now k }
{
    if b <= k {
        return Field::BLANK;
    }
    kept_point(n, own, messages::value(mine, k as usize), b, inbox, k)
}

// That of each block.
fn each_kept(n: u8, own: u8, mine: &[u16], b: u16, inbox: &[u16]) -> [u16; 32]
    requires { (n ≤ 31) × (n * b ≡ length inbox.now) }
    ensures { result ≡ list_of (kept_from n own mine.now b inbox.now) 32 }
{
    array::from_fn(move |k| kept_at(n, own, mine, b, inbox, k as u16))
}

// The kept points of all blocks.
fn kept_points(n: u8, m: u8, own: u8, speaks: bool, bytes: [u8; 32], inbox: &[u16]) -> [u16; 32]
    requires { (refusal_of_sizes n m own ≡ 0) × (n * blocks n m ≡ length inbox.now) }
    ensures { result ≡ kept_points n m own speaks bytes inbox.now }
{
    let b = sizes::blocks(n, m) as u16;
    let values = codeword::values(n, m, bytes, own).unwrap();
    let mine = silenced_unless(speaks, values);
    each_kept(n, own, &mine, b, inbox)
}

// Listens to the points: per block, the point received at least t + 1 times, the smallest if several, blank if none.
pub fn kept(
    n: u8,
    m: u8,
    own: u8,
    speaks: bool,
    bytes: [u8; 32],
    inbox: &[u16],
) -> Result<[u16; 32], Refusal>
    ensures { Gives result (round_refusal n m own (length inbox.now)) (kept_points n m own speaks bytes inbox.now) }
{
    refusal(n, m, own, inbox.len())?;
    Ok(kept_points(n, m, own, speaks, bytes, inbox))
}
