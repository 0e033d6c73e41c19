// The parts of a state, each written through the part of the slice that starts at its place.
ghost use Rattle.std.specs.Prelude.{◌≡◌, length, take};
ghost use Rattle.lists.specs.Lists.{list_of};
ghost use Rattle.agreement.specs.declared.Stage.TheVariants.{Ended};
ghost use Rattle.state_bytes.specs.Layout.{Bytes, offset, state_length, poster_byte, stage_byte, half as half_of, flag_byte, point_byte, encode as encode_of};

use crate::{AGREEMENTS, BYTES, KEPT, LAYOUT, REPORTS};
use agreement::{Column, Outcome, Stage};
use protocols::Protocol;
use std::array;

// Where nobody posts, the poster's number is 0.
#[tactic(auto, unfolding(crate::specs::Layout::poster_byte))]
fn poster_byte(protocol: Protocol) -> u8
    ensures { result ≡ poster_byte protocol }
{
    if protocols::posts(protocol) {
        protocols::beside(protocol)
    } else {
        0
    }
}

#[tactic(auto, unfolding(crate::specs::Layout::stage_byte))]
fn stage_byte(stage: Stage) -> u8
    ensures { result ≡ stage_byte stage }
{
    match stage {
        Stage::Speak(_) => 0,
        Stage::Listen(_) => 1,
        Stage::Ended(Outcome::Nothing) => 2,
        Stage::Ended(Outcome::Record) => 3,
    }
}

// What lies before the record.
#[tactic(auto, unfolding(crate::specs::Layout::encode, crate::specs::Layout::joined, crate::specs::Layout::part, crate::specs::Layout::half))]
fn numbers(column: Column) -> [u8; BYTES]
    ensures { result ≡ take (offset Bytes) (encode_of column) }
{
    let [low, high] = column.proposal.to_le_bytes();
    [
        LAYOUT,
        protocols::number_of(column.protocol),
        poster_byte(column.protocol),
        column.n,
        column.m,
        column.own,
        stage_byte(column.stage),
        refusals::round_of(column.stage),
        column.grade,
        column.vote,
        u8::from(column.firm),
        low,
        high,
    ]
}

fn flag_bytes(flags: [bool; 31]) -> [u8; 31]
    ensures { result ≡ list_of (flag_byte flags) 31 }
{
    array::from_fn(|i| u8::from(flags[i]))
}

fn point_bytes(kept: [u16; 32]) -> [u8; 64]
    ensures { result ≡ list_of (point_byte kept) 64 }
{
    // By index: with `from_fn`, byte by byte, decoding and encoding take twice as long.
    let mut bytes = [0u8; 64];
    for i in 0..32 {
        let [low, high] = kept[i].to_le_bytes();
        let q = 2 * i;
        bytes[q] = low;
        bytes[q + 1] = high;
    }
    bytes
}

// The whole state, part by part.
pub(super) fn all(column: Column, state: &mut [u8])
    requires { length state.old ≡ state_length }
    ensures { state.new ≡ encode_of column }
{
    messages::put(&numbers(column), state).unwrap();
    messages::put(&column.bytes, &mut state[BYTES..]).unwrap();
    messages::put(&flag_bytes(column.agreements), &mut state[AGREEMENTS..]).unwrap();
    messages::put(&flag_bytes(column.reports), &mut state[REPORTS..]).unwrap();
    messages::put(&point_bytes(column.kept), &mut state[KEPT..]).unwrap();
}
