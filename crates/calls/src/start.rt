// A fresh column.
ghost use Rattle.std.specs.Prelude.{◌≡◌, cond, [], eqb};
ghost use Rattle.block.specs.Block.{part};
ghost use Rattle.agreement.specs.Column.{fresh_vote, brought, fresh_column};

use agreement::{Column, Stage};
use field::Field;
use protocols::Protocol;
use std::array;

// A record in 32 places.
fn places(bytes: &[u8]) -> [u8; 32]
    ensures { result ≡ part bytes.now 0 32 }
{
    array::from_fn(|p| messages::byte(bytes, p))
}

// In a posting only the poster has a record.
fn posted(poster: u8, own: u8, bytes: &[u8]) -> [u8; 32]
    ensures { result ≡ part (cond (eqb own poster) bytes.now []) 0 32 }
{
    if own == poster {
        return places(bytes);
    }
    [0; 32]
}

// The record that a column brings.
#[tactic(auto, unfolding(agreement::specs::Column::brought))]
fn record_of(protocol: Protocol, own: u8, bytes: &[u8]) -> [u8; 32]
    ensures { result ≡ part (brought protocol own bytes.now) 0 32 }
{
    if protocols::posts(protocol) {
        return posted(protocols::beside(protocol), own, bytes);
    }
    places(bytes)
}

// And its vote.
#[tactic(auto, unfolding(agreement::specs::Column::fresh_vote))]
fn vote_of(protocol: Protocol) -> u8
    ensures { result ≡ fresh_vote protocol }
{
    u8::from(protocols::posts(protocol))
}

// A column that is to speak in round 1, with nothing heard yet.
#[tactic(auto, unfolding(agreement::specs::Column::fresh_column))]
pub(super) fn column(protocol: Protocol, n: u8, m: u8, own: u8, bytes: &[u8]) -> Column
    ensures { result ≡ fresh_column protocol n m own bytes.now }
{
    Column {
        protocol,
        n,
        m,
        own,
        bytes: record_of(protocol, own, bytes),
        proposal: Field::BLANK,
        stage: Stage::Speak(1),
        agreements: [false; 31],
        reports: [false; 31],
        grade: 0,
        vote: vote_of(protocol),
        firm: false,
        kept: [Field::BLANK; 32],
    }
}
