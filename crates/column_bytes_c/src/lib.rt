// The archive for boards, libcolumn_bytes.a: each export is the call of `column_bytes` of the same name, with that call's contract.
// include/column.h declares them.
#![tactic(auto)]

ghost use Rattle.std.specs.Prelude.{◌≡◌};
ghost use Rattle.protocols.specs.declared.Protocol.TheVariants.{Agreement, Posting};
ghost use Rattle.column_bytes.specs.Calls.{narrow as narrow_of, rounds_of, values_of, fresh_answer, fresh_state, speak_answer, speak_state, speak_out, listen_answer, listen_state, outcome_answer, outcome_out};

use column_bytes::columns;

#[unsafe(no_mangle)]
pub extern "C" fn column_rounds(runs: u32, n: u32) -> usize
    ensures { result ≡ rounds_of runs n }
{
    columns::column_rounds(runs, n)
}

#[unsafe(no_mangle)]
pub extern "C" fn column_values(runs: u32, n: u32, m: u32, round: u32) -> usize
    ensures { result ≡ values_of runs n m round }
{
    columns::column_values(runs, n, m, round)
}

#[unsafe(no_mangle)]
pub extern "C" fn column_fresh(n: u32, m: u32, own: u32, record: &[u8], state: &mut [u8]) -> u8
    ensures { (result ≡ fresh_answer Agreement (narrow_of n) (narrow_of m) (narrow_of own) «record».now state.old)
        × (state.new ≡ fresh_state Agreement (narrow_of n) (narrow_of m) (narrow_of own) «record».now state.old) }
{
    columns::column_fresh(n, m, own, record, state)
}

#[unsafe(no_mangle)]
pub extern "C" fn posting_fresh(
    n: u32,
    m: u32,
    own: u32,
    poster: u32,
    record: &[u8],
    state: &mut [u8],
) -> u8
    ensures { (result ≡ fresh_answer (Posting (narrow_of poster)) (narrow_of n) (narrow_of m) (narrow_of own) «record».now state.old)
        × (state.new ≡ fresh_state (Posting (narrow_of poster)) (narrow_of n) (narrow_of m) (narrow_of own) «record».now state.old) }
{
    columns::posting_fresh(n, m, own, poster, record, state)
}

#[unsafe(no_mangle)]
pub extern "C" fn column_speak(state: &mut [u8], out: &mut [u16]) -> u8
    ensures { (result ≡ speak_answer state.old out.old) × (state.new ≡ speak_state state.old out.old)
        × (out.new ≡ speak_out state.old out.old) }
{
    columns::column_speak(state, out)
}

#[unsafe(no_mangle)]
pub extern "C" fn column_listen(state: &mut [u8], inbox: &[u16]) -> u8
    ensures { (result ≡ listen_answer state.old inbox.now) × (state.new ≡ listen_state state.old inbox.now) }
{
    columns::column_listen(state, inbox)
}

#[unsafe(no_mangle)]
pub extern "C" fn column_outcome(state: &[u8], out: &mut [u8]) -> u8
    ensures { (result ≡ outcome_answer state.now out.old) × (out.new ≡ outcome_out state.now out.old) }
{
    columns::column_outcome(state, out)
}
