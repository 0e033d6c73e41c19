// The refusals of a column's calls, in every protocol, as document 01 numbers and orders them. To speak, to listen and to ask are
// refused here by the state alone: that of a slice comes behind them, and is the round's.
#![tactic(auto)]

mod ranges;

ghost use Rattle.std.specs.Prelude.{◌≡◌};
ghost use Rattle.sizes.specs.Refusals.{number_in};
ghost use Rattle.agreement.specs.Calls.{fresh_refusal, round_of, when_speaking, when_listening, when_asked, in_state, outcome_refusal};

use agreement::{Column, Stage};
use protocols::Protocol;
use sizes::numbers::Refusal;

// Of a call to make a column: 1, 2, 3 for the sizes, the own and the poster's number, 4 for a record that has not m bytes.
pub fn to_make(protocol: Protocol, n: u8, m: u8, own: u8, len: usize) -> Result<(), Refusal>
    ensures { number_in result ≡ fresh_refusal protocol n m own len }
{
    sizes::refusal(n, m, own)?;
    sizes::refusal(n, m, protocols::beside(protocol))?;
    messages::refusal(1, m as u16, len)
}

// The round of a stage; 0 after the end.
#[tactic(auto, unfolding(agreement::specs::Calls::round_of))]
pub fn round_of(stage: Stage) -> u8
    ensures { result ≡ round_of stage }
{
    match stage {
        Stage::Speak(round) | Stage::Listen(round) => round,
        Stage::Ended(_) => 0,
    }
}

// 11: a state out of its ranges.
#[tactic(auto, unfolding(agreement::specs::Calls::in_state))]
fn in_state(column: Column) -> Result<(), Refusal>
    ensures { number_in result ≡ in_state column 0 }
{
    if ranges::fits(column) {
        Ok(())
    } else {
        Err(Refusal::State)
    }
}

// Of a call to speak, by the state: 11, 10 after the end, 7 when it should listen.
#[tactic(auto, unfolding(agreement::specs::Calls::in_state, agreement::specs::Calls::when_speaking))]
pub fn to_speak(column: Column) -> Result<(), Refusal>
    ensures { number_in result ≡ in_state column (when_speaking column.stage) }
{
    in_state(column)?;
    match column.stage {
        Stage::Speak(_) => Ok(()),
        Stage::Listen(_) => Err(Refusal::Listens),
        Stage::Ended(_) => Err(Refusal::Ended),
    }
}

// Of a call to listen, by the state: 11, 10 after the end, 8 when it should speak.
#[tactic(auto, unfolding(agreement::specs::Calls::in_state, agreement::specs::Calls::when_listening))]
pub fn to_listen(column: Column) -> Result<(), Refusal>
    ensures { number_in result ≡ in_state column (when_listening column.stage) }
{
    in_state(column)?;
    match column.stage {
        Stage::Speak(_) => Err(Refusal::Speaks),
        Stage::Listen(_) => Ok(()),
        Stage::Ended(_) => Err(Refusal::Ended),
    }
}

// Of a call for the outcome: 11, then 9 before the end.
#[tactic(auto, unfolding(agreement::specs::Calls::outcome_refusal, agreement::specs::Calls::in_state, agreement::specs::Calls::when_asked))]
pub fn to_ask(column: Column) -> Result<(), Refusal>
    ensures { number_in result ≡ outcome_refusal column }
{
    in_state(column)?;
    match column.stage {
        Stage::Ended(_) => Ok(()),
        Stage::Speak(_) | Stage::Listen(_) => Err(Refusal::Runs),
    }
}
