// The second round: each column sends its kept points to all, and decodes what it received, block by block.
ghost use Rattle.std.specs.Prelude.{◌≡◌, ◌≤◌, length, get_or, IfOk};
ghost use Rattle.lists.specs.Lists.{all, list_of};
ghost use Rattle.sizes.specs.Sizes.{blocks, refusal as refusal_of_sizes};
ghost use Rattle.messages.specs.Messages.{to_all, unless_refused};
ghost use Rattle.sizes.specs.Refusals.{number_in};
ghost use Rattle.decoder.specs.Decoder.{decoded, found_in, four};
ghost use Rattle.dissemination.specs.Dissemination.{spoken, points_in, point_at, record_of, record_in, round_refusal};
ghost use Rattle.dissemination.specs.Decoding.{is_byte_at, byte_in, Decodes, stored_byte};

use super::{read_points, refusal, silenced_unless};
use decoder::Coefficients;
use sizes::numbers::Refusal;
use std::array;

// Sends the kept points to all, or blanks where the column does not speak. A refused call writes nothing.
pub fn send(n: u8, m: u8, speaks: bool, kept: [u16; 32], out: &mut [u16]) -> Result<(), Refusal>
    ensures { (number_in result ≡ round_refusal n m 1 (length out.old))
        × (out.new ≡ unless_refused (round_refusal n m 1 (length out.old)) (to_all n (blocks n m) (spoken speaks kept)) out.old) }
{
    refusal(n, m, 1, out.len())?;
    let message = silenced_unless(speaks, kept);
    messages::to_all(n, sizes::blocks(n, m) as u16, &message, out)
}

// What the points of block k are decoded to.
fn block(n: u8, own: u8, mine: [u16; 32], w: u16, inbox: &[u16], k: u16) -> Option<Coefficients>
    requires { refusal_of_sizes n 1 1 ≡ 0 }
    ensures { found_in result ≡ decoded n (list_of (point_at (points_in own mine w inbox.now k)) n) }
{
    let heard = messages::heard_of_all(n, own, &mine, w, inbox, k);
    let points = read_points(heard);
    decoder::decode(n, &points[..n as usize]).unwrap()
}

// Coefficient i.
fn coefficient(c: Coefficients, i: usize) -> u16
    ensures { result ≡ get_or (four c) i 0 }
{
    [c.c0, c.c1, c.c2, c.c3].get(i).copied().unwrap_or(0)
}

// Whether v may stand at place p of a record of m bytes: a byte, and 0 past m.
#[tactic(auto, unfolding(crate::specs::Decoding::is_byte_at))]
fn is_byte(m: u8, p: usize, v: u16) -> bool
    ensures { result ≡ is_byte_at m p v }
{
    v < 256 && (p < m as usize || v == 0)
}

// Whether the first coefficients, `size` of them, may stand in a record from the place `from` on.
fn are_bytes(m: u8, from: u16, size: u16, c: Coefficients) -> bool
    ensures { result ≡ all (byte_in m from c) size }
{
    (0..size).all(|i| is_byte(m, from as usize + i as usize, coefficient(c, i as usize)))
}

// Decodes every block; nothing is found as soon as one has no polynomial, or a coefficient that may not stand in a record. By
// number: four places of one array are written for each.
fn decode_blocks(n: u8, m: u8, own: u8, mine: [u16; 32], inbox: &[u16]) -> Option<[u16; 128]>
    requires { refusal_of_sizes n m own ≡ 0 }
    ensures { Decodes n m (points_in own mine (blocks n m) inbox.now) result }
{
    let b = sizes::blocks(n, m) as u16;
    let size = sizes::degree(n) as u16 + 1;
    let mut coefficients = [0u16; 128];
    for k in 0..b {
        let Some(c) = block(n, own, mine, b, inbox, k) else {
            return None;
        };
        if !are_bytes(m, k * size, size, c) {
            return None;
        }
        let at = 4 * (k as usize);
        coefficients[at] = c.c0;
        coefficients[at + 1] = c.c1;
        coefficients[at + 2] = c.c2;
        coefficients[at + 3] = c.c3;
    }
    Some(coefficients)
}

// Byte p of a record of m bytes, cut into blocks of `size` bytes.
fn byte_at(size: u16, m: u8, coefficients: &[u16], p: u8) -> u8
    requires { 1 ≤ size }
    ensures { result ≡ stored_byte size m coefficients.now p }
{
    if m <= p {
        return 0;
    }
    let at = p as u16;
    let v = messages::value(
        coefficients,
        4 * ((at / size) as usize) + (at % size) as usize,
    );
    (v % 256) as u8
}

// The bytes of the record.
fn joined(size: u16, m: u8, coefficients: &[u16]) -> [u8; 32]
    requires { 1 ≤ size }
    ensures { result ≡ list_of (stored_byte size m coefficients.now) 32 }
{
    array::from_fn(|p| byte_at(size, m, coefficients, p as u8))
}

// Listens to the kept points: the record whose blocks they decode to. There is none if a block has none, if a coefficient is 256 or if a
// fill byte is not 0.
pub fn decode(
    n: u8,
    m: u8,
    own: u8,
    speaks: bool,
    kept: [u16; 32],
    inbox: &[u16],
) -> Result<Option<[u8; 32]>, Refusal>
    ensures { (number_in result ≡ round_refusal n m own (length inbox.now))
        × IfOk result (λ found. record_in found ≡ record_of n m (points_in own (spoken speaks kept) (blocks n m) inbox.now)) }
{
    refusal(n, m, own, inbox.len())?;
    let mine = silenced_unless(speaks, kept);
    let blocks = decode_blocks(n, m, own, mine, inbox);
    let Some(coefficients) = &blocks else {
        return Ok(None);
    };
    let size = sizes::degree(n) as u16 + 1;
    Ok(Some(joined(size, m, coefficients)))
}
