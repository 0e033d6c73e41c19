// The parts of a state, each read from the place where it starts, and which bytes are a state.
ghost use Rattle.std.specs.Prelude.{◌≡◌, ◌+◌, ◌*◌, ◌≤◌};
ghost use Rattle.lists.specs.Lists.{all, list_of};
ghost use Rattle.state_bytes.specs.Layout.{Kept, offset, stage_of, byte_from, flag_from, word_from, whole as whole_of, is_protocol, is_stage, are_numbers, is_flag, flags as flags_of};

use crate::{AGREEMENTS, FIRM, FLAGS, LAYOUT, POSTER, ROUND, RUNS, SIZE, STAGE, VERSION};
use agreement::{Outcome, Stage};
use std::array;

#[tactic(auto, unfolding(crate::specs::Layout::stage_of))]
pub(super) fn stage(stage: u8, round: u8) -> Stage
    ensures { result ≡ stage_of stage round }
{
    match stage {
        0 => Stage::Speak(round),
        1 => Stage::Listen(round),
        2 => Stage::Ended(Outcome::Nothing),
        _ => Stage::Ended(Outcome::Record),
    }
}

// A state's bytes of more or of fewer, with zeros past the end: what is read of them needs no test of the length. By the length, since
// `first_chunk` takes a twelfth more of decoding and encoding.
pub(super) fn whole(state: &[u8]) -> [u8; SIZE]
    ensures { result ≡ whole_of state.now }
{
    if state.len() < SIZE {
        return array::from_fn(|i| messages::byte(state, i));
    }
    array::from_fn(|i| state[i])
}

pub(super) fn bytes(state: &[u8; SIZE], at: usize) -> [u8; 32]
    requires { at ≤ offset Kept }
    ensures { result ≡ list_of (byte_from state.now at) 32 }
{
    array::from_fn(|i| state[at + i])
}

pub(super) fn flags(state: &[u8; SIZE], at: usize) -> [bool; 31]
    requires { at ≤ offset Kept }
    ensures { result ≡ list_of (flag_from state.now at) 31 }
{
    array::from_fn(|i| state[at + i] == 1)
}

pub(super) fn words(state: &[u8; SIZE], at: usize) -> [u16; 32]
    requires { at ≤ offset Kept }
    ensures { result ≡ list_of (word_from state.now at) 32 }
{
    array::from_fn(|i| {
        let p = at + 2 * i;
        u16::from_le_bytes([state[p], state[p + 1]])
    })
}

// Where nobody posts, the poster's number is 0.
#[tactic(auto, unfolding(crate::specs::Layout::is_protocol))]
fn is_protocol(runs: u8, poster: u8) -> bool
    ensures { result ≡ is_protocol runs poster }
{
    (runs as usize) < protocols::PROTOCOLS
        && (protocols::posts(protocols::protocol_of(runs, poster)) || poster == 0)
}

// There is no round after the end.
#[tactic(auto, unfolding(crate::specs::Layout::is_stage))]
fn is_stage(stage: u8, round: u8) -> bool
    ensures { result ≡ is_stage stage round }
{
    match stage {
        0 | 1 => true,
        2 | 3 => round == 0,
        _ => false,
    }
}

#[tactic(auto, unfolding(crate::specs::Layout::are_numbers))]
pub(super) fn are_numbers(state: &[u8]) -> bool
    ensures { result ≡ are_numbers state.now }
{
    let version = messages::byte(state, VERSION) == LAYOUT;
    let protocol = is_protocol(messages::byte(state, RUNS), messages::byte(state, POSTER));
    let stage = is_stage(messages::byte(state, STAGE), messages::byte(state, ROUND));
    let firm = messages::byte(state, FIRM) < 2;
    version & protocol & stage & firm
}

// Agreements and reports lie behind each other, and are tested in one loop, by index and none left early: the machine tests eight at a time.
pub(super) fn are_flags(state: &[u8]) -> bool
    ensures { result ≡ all (is_flag state.now) flags_of }
{
    let mut all = true;
    for i in 0..FLAGS {
        all = all & (messages::byte(state, AGREEMENTS + i) < 2);
    }
    all
}
