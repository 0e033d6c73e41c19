// The calls. One makes a column for each protocol; the others serve every protocol, since the state tells which it runs.
ghost use Rattle.std.specs.Prelude.{◌≡◌};
ghost use Rattle.protocols.specs.declared.Protocol.TheVariants.{Agreement, Posting};
ghost use Rattle.column_bytes.specs.Calls.{narrow as narrow_of, rounds_of, values_of, fresh_answer, fresh_state, speak_answer, speak_state, speak_out, listen_answer, listen_state, outcome_answer, outcome_out};

use crate::answers;
use crate::numbers::narrow;
use protocols::Protocol;
use sizes::numbers::number_in;

// The rounds of a run of the protocol with this number on a wall of n columns; 0 where there is no such protocol or wall.
#[tactic(auto, using(sizes::proofs::Laws::inside), unfolding(crate::specs::Calls::rounds_of))]
pub fn column_rounds(runs: u32, n: u32) -> usize
    ensures { result ≡ rounds_of runs n }
{
    if runs as usize >= protocols::PROTOCOLS {
        return 0;
    }
    if sizes::outside(4, 31, n as usize) {
        return 0;
    }
    protocols::rounds_in(protocols::protocol_of(runs as u8, 1), n as u8)
}

// The values of one message in a round; 0 where there is no such protocol, n or m is no wall's, or the run has no such round.
#[tactic(auto, using(sizes::proofs::Laws::inside, crate::proofs::Laws::runs_some), unfolding(crate::specs::Calls::values_of))]
pub fn column_values(runs: u32, n: u32, m: u32, round: u32) -> usize
    ensures { result ≡ values_of runs n m round }
{
    if sizes::outside(4, 31, n as usize) {
        return 0;
    }
    if sizes::outside(1, 32, m as usize) {
        return 0;
    }
    if sizes::outside(1, column_rounds(runs, n), round as usize) {
        return 0;
    }
    let protocol = protocols::protocol_of(runs as u8, 1);
    protocols::values_in(protocol, n as u8, m as u8, round as u8) as usize
}

// Makes column `own` of a wall of n columns that runs an agreement, with a record of m bytes, and writes its state: `calls::fresh`. Refused with 1, 2,
// 3, then with 4 for a record not of m bytes or a slice for the state not of its length.
pub fn column_fresh(n: u32, m: u32, own: u32, record: &[u8], state: &mut [u8]) -> u8
    ensures { (result ≡ fresh_answer Agreement (narrow_of n) (narrow_of m) (narrow_of own) «record».now state.old)
        × (state.new ≡ fresh_state Agreement (narrow_of n) (narrow_of m) (narrow_of own) «record».now state.old) }
{
    number_in(answers::fresh(
        Protocol::Agreement,
        narrow(n),
        narrow(m),
        narrow(own),
        record,
        state,
    ))
}

// The same of a posting by column `poster`, whose record alone is kept. Refused with 3 for its number too.
pub fn posting_fresh(n: u32, m: u32, own: u32, poster: u32, record: &[u8], state: &mut [u8]) -> u8
    ensures { (result ≡ fresh_answer (Posting (narrow_of poster)) (narrow_of n) (narrow_of m) (narrow_of own) «record».now state.old)
        × (state.new ≡ fresh_state (Posting (narrow_of poster)) (narrow_of n) (narrow_of m) (narrow_of own) «record».now state.old) }
{
    number_in(answers::fresh(
        Protocol::Posting(narrow(poster)),
        narrow(n),
        narrow(m),
        narrow(own),
        record,
        state,
    ))
}

// Writes the messages of the round to the outgoing slice: `calls::speak`. Refused with 4 for a state not of its length, then 11, 10, 7, 4.
pub fn column_speak(state: &mut [u8], out: &mut [u16]) -> u8
    ensures { (result ≡ speak_answer state.old out.old) × (state.new ≡ speak_state state.old out.old)
        × (out.new ≡ speak_out state.old out.old) }
{
    number_in(answers::speak(state, out))
}

// Reads the messages of the round from the incoming slice: `calls::listen`. Refused with 4 for a state not of its length, then 11, 10, 8, 4.
pub fn column_listen(state: &mut [u8], inbox: &[u16]) -> u8
    ensures { (result ≡ listen_answer state.old inbox.now) × (state.new ≡ listen_state state.old inbox.now) }
{
    number_in(answers::listen(state, inbox))
}

// Writes what the column ended on to a slice of an entry's length: `calls::tell`, with the grade of the outcome and the last vote. Refused with 4 for
// a state not of its length, then 11, 9, 4.
pub fn column_outcome(state: &[u8], out: &mut [u8]) -> u8
    ensures { (result ≡ outcome_answer state.now out.old) × (out.new ≡ outcome_out state.now out.old) }
{
    number_in(answers::outcome(state, out))
}
