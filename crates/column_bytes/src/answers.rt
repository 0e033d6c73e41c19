// What the calls on bytes have in common.
ghost use Rattle.std.specs.Prelude.{◌≡◌, length};
ghost use Rattle.sizes.specs.Refusals.{number_in};
ghost use Rattle.messages.specs.Messages.{refusal, unless_refused};
ghost use Rattle.agreement.specs.Answers.{answered_in};
ghost use Rattle.agreement.specs.Calls.{refusal_of};
ghost use Rattle.state_bytes.specs.Layout.{state_length, encode};
ghost use Rattle.column_bytes.specs.Calls.{state_refusal, fresh_answer, fresh_state, speak_answer, speak_state, speak_out, listen_answer, listen_state, outcome_answer, outcome_out};

use agreement::Column;
use protocols::Protocol;
use sizes::numbers::Refusal;

// Refuses bytes that are no state: with 4 for another length, then with 11.
#[tactic(auto, unfolding(crate::specs::Calls::state_refusal))]
fn check(state: &[u8]) -> Result<(), Refusal>
    ensures { number_in result ≡ state_refusal state.now }
{
    if state.len() != state_bytes::SIZE {
        return Err(Refusal::Length);
    }
    if !state_bytes::is_state(state) {
        return Err(Refusal::State);
    }
    Ok(())
}

// Writes the state that a call left, unless the call was refused. In a function of its own: with `?` at the call the column is copied once more, a
// twelfth of speaking.
fn keep(left: Result<Column, Refusal>, state: &mut [u8]) -> Result<(), Refusal>
    ensures { (before : _) → (number_in result ≡ refusal (refusal_of (answered_in left before).answer) 1 state_length (length state.old))
        × (state.new ≡ unless_refused (refusal (refusal_of (answered_in left before).answer) 1 state_length (length state.old)) (encode (answered_in left before).column) state.old) }
{
    let column = left?;
    state_bytes::encode(column, state)
}

// Makes a column that runs a protocol, and writes its state.
pub(super) fn fresh(
    protocol: Protocol,
    n: u8,
    m: u8,
    own: u8,
    record: &[u8],
    state: &mut [u8],
) -> Result<(), Refusal>
    ensures { (number_in result ≡ fresh_answer protocol n m own «record».now state.old)
        × (state.new ≡ fresh_state protocol n m own «record».now state.old) }
{
    keep(calls::fresh(protocol, n, m, own, record), state)
}

// Lets the column speak, and writes its state.
pub(super) fn speak(state: &mut [u8], out: &mut [u16]) -> Result<(), Refusal>
    ensures { (number_in result ≡ speak_answer state.old out.old) × (state.new ≡ speak_state state.old out.old)
        × (out.new ≡ speak_out state.old out.old) }
{
    check(state)?;
    keep(calls::speak(state_bytes::decode(state), out), state)
}

// Lets the column listen, and writes its state.
pub(super) fn listen(state: &mut [u8], inbox: &[u16]) -> Result<(), Refusal>
    ensures { (number_in result ≡ listen_answer state.old inbox.now) × (state.new ≡ listen_state state.old inbox.now) }
{
    check(state)?;
    keep(calls::listen(state_bytes::decode(state), inbox), state)
}

// Writes the column's entry.
pub(super) fn outcome(state: &[u8], out: &mut [u8]) -> Result<(), Refusal>
    ensures { (number_in result ≡ outcome_answer state.now out.old) × (out.new ≡ outcome_out state.now out.old) }
{
    check(state)?;
    let entry = calls::tell(state_bytes::decode(state))?;
    state_bytes::entries::refusal(out.len())?;
    state_bytes::entries::put(entry, out);
    Ok(())
}
