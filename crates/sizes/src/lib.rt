// The sizes of a wall: of n columns and records of m bytes, how many columns may be unsound, the greatest degree of a block and the blocks
// of a record. Each answers every byte; `refusal` says which are no sizes.
#![tactic(auto)]

pub mod numbers;

ghost use Rattle.std.specs.Prelude.{◌≡◌};
ghost use Rattle.sizes.specs.Sizes.{faults as faults_of, degree as degree_of, blocks as blocks_of, outside as outside_of, refusal as refusal_of};
ghost use Rattle.sizes.specs.Refusals.{number_in};

use numbers::Refusal;

// Whether x is outside low to high.
#[tactic(auto, unfolding(crate::specs::Sizes::outside))]
pub fn outside(low: usize, high: usize, x: usize) -> bool
    ensures { result ≡ outside_of low high x }
{
    !(low..=high).contains(&x)
}

// The refusal of n columns, m bytes and a column number: 1, 2 or 3.
#[tactic(auto, unfolding(crate::specs::Sizes::refusal))]
pub fn refusal(n: u8, m: u8, number: u8) -> Result<(), Refusal>
    ensures { number_in result ≡ refusal_of n m number }
{
    if outside(4, 31, n as usize) {
        return Err(Refusal::Columns);
    }
    if outside(1, 32, m as usize) {
        return Err(Refusal::Bytes);
    }
    if outside(1, n as usize, number as usize) {
        return Err(Refusal::Number);
    }
    Ok(())
}

// t: how many of n columns may be unsound.
#[tactic(auto, using(crate::proofs::Laws::faults_formula, crate::proofs::Laws::faults_past))]
pub fn faults(n: u8) -> usize
    ensures { result ≡ faults_of n }
{
    match n {
        4..=6 => 1,
        7..=9 => 2,
        10..=12 => 3,
        13..=15 => 4,
        16..=18 => 5,
        19..=21 => 6,
        22..=24 => 7,
        25..=27 => 8,
        28..=30 => 9,
        31 => 10,
        _ => 0,
    }
}

// d: the greatest degree of a block.
#[tactic(auto, using(crate::proofs::Laws::faults_formula, crate::proofs::Laws::degree_formula, crate::proofs::Laws::degree_past))]
pub fn degree(n: u8) -> usize
    ensures { result ≡ degree_of n }
{
    match n {
        4..=9 => 0,
        10..=18 => 1,
        19..=27 => 2,
        28..=31 => 3,
        _ => 0,
    }
}

// B: how many blocks a record of m bytes is cut into. By literals, which the compiler divides by without a division; `div_ceil` costs a
// twentieth more.
#[tactic(auto, unfolding(crate::specs::Sizes::blocks), using(crate::proofs::Laws::degree_small))]
pub fn blocks(n: u8, m: u8) -> usize
    ensures { result ≡ blocks_of n m }
{
    match degree(n) {
        0 => m as usize,
        1 => (m as usize + 1) / 2,
        2 => (m as usize + 2) / 3,
        _ => (m as usize + 3) / 4,
    }
}
