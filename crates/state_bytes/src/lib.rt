// A column's state as bytes, and back; and an entry as bytes. The layout is defined in specs/, part by part, where it is proved that neither way
// loses anything.
#![tactic(auto)]

pub mod entries;
mod reading;
mod writing;

ghost use Rattle.std.specs.Prelude.{◌≡◌, length};
ghost use Rattle.sizes.specs.Refusals.{number_in};
ghost use Rattle.messages.specs.Messages.{refusal as refusal_of, unless_refused};
ghost use Rattle.state_bytes.specs.Layout.{state_length, encode as encode_of, column_of, decode as decode_of, is_state};

use agreement::Column;
use sizes::numbers::Refusal;

// Where each part of a state starts: where the one before it ends.
const VERSION: usize = 0;

const RUNS: usize = VERSION + 1;

const POSTER: usize = RUNS + 1;

const N: usize = POSTER + 1;

const M: usize = N + 1;

const OWN: usize = M + 1;

const STAGE: usize = OWN + 1;

const ROUND: usize = STAGE + 1;

const GRADE: usize = ROUND + 1;

const VOTE: usize = GRADE + 1;

const FIRM: usize = VOTE + 1;

const PROPOSAL: usize = FIRM + 1;

const BYTES: usize = PROPOSAL + 2;

const AGREEMENTS: usize = BYTES + 32;

const REPORTS: usize = AGREEMENTS + 31;

const KEPT: usize = REPORTS + 31;

// Which layout this is.
const LAYOUT: u8 = 2;

// How many flags lie behind each other, and how long a state is.
const FLAGS: usize = KEPT - AGREEMENTS;

pub const SIZE: usize = KEPT + 64;

// The refusal of a slice that has not a state's length: 4.
pub fn refusal(len: usize) -> Result<(), Refusal>
    ensures { number_in result ≡ refusal_of 0 1 state_length len }
{
    messages::refusal(1, SIZE as u16, len)
}

// Writes the state of a column to a slice of its length. Refused with 4 for a slice of another length, which stays as it was.
pub fn encode(column: Column, state: &mut [u8]) -> Result<(), Refusal>
    ensures { (number_in result ≡ refusal_of 0 1 state_length (length state.old)) × (state.new ≡ unless_refused (refusal_of 0 1 state_length (length state.old)) (encode_of column) state.old) }
{
    refusal(state.len())?;
    writing::all(column, state);
    Ok(())
}

// The column that a whole state is read as.
#[tactic(auto, unfolding(crate::specs::Layout::column_of))]
fn column(state: [u8; SIZE]) -> Column
    ensures { result ≡ column_of state }
{
    Column {
        protocol: protocols::protocol_of(state[RUNS], state[POSTER]),
        n: state[N],
        m: state[M],
        own: state[OWN],
        bytes: reading::bytes(&state, BYTES),
        proposal: messages::word(&state, PROPOSAL),
        stage: reading::stage(state[STAGE], state[ROUND]),
        agreements: reading::flags(&state, AGREEMENTS),
        reports: reading::flags(&state, REPORTS),
        grade: state[GRADE],
        vote: state[VOTE],
        firm: state[FIRM] == 1,
        kept: reading::words(&state, KEPT),
    }
}

// The column that bytes are read as. Where they are no state it is some column, which nobody should use.
#[tactic(auto, unfolding(crate::specs::Layout::decode))]
pub fn decode(state: &[u8]) -> Column
    ensures { result ≡ decode_of state.now }
{
    column(reading::whole(state))
}

// Whether bytes are a state of a column.
#[tactic(auto, unfolding(crate::specs::Layout::is_state))]
pub fn is_state(state: &[u8]) -> bool
    ensures { result ≡ is_state state.now }
{
    state.len() == SIZE && reading::are_numbers(state) && reading::are_flags(state)
}
