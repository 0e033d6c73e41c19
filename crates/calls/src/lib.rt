// A column of a wall, in every protocol: the calls that make it, let it speak and listen in every round and ask it for its outcome or its
// entry. Each equals its definition in `agreement`, of which the third demand and Definition 3.10 are proved. A refused call says why, and writes
// nothing.
#![tactic(auto)]

mod endings;
mod entries;
mod start;

ghost use Rattle.std.specs.Prelude.{◌≡◌};
ghost use Rattle.sizes.specs.Refusals.{Gives};
ghost use Rattle.agreement.specs.Answers.{answered_in};
ghost use Rattle.agreement.specs.Replies.{replied_in};
ghost use Rattle.agreement.specs.Calls.{no_column, fresh as fresh_of, speak as speak_of, written, listen as listen_of, outcome_refusal, outcome as outcome_of};
ghost use Rattle.agreement.specs.Entries.{mark_only, sound_entry, told, told_in};

pub use agreement::{Column, Entry, Outcome, Stage};
pub use protocols::Protocol;
pub use sizes::numbers::Refusal;

// Makes column `own` of a wall of n columns, with a record of m bytes; of a posting only the poster has one. Refused with 1, 2, 3 for the
// sizes, the own and the poster's number, with 4 for a record of another length.
pub fn fresh(protocol: Protocol, n: u8, m: u8, own: u8, record: &[u8]) -> Result<Column, Refusal>
    ensures { answered_in result no_column ≡ fresh_of protocol n m own «record».now }
{
    refusals::to_make(protocol, n, m, own, record.len())?;
    Ok(start::column(protocol, n, m, own, record))
}

// A column of no wall: every later call refuses it with 11.
#[tactic(auto, unfolding(agreement::specs::Calls::no_column))]
pub fn no_column() -> Column
    ensures { result ≡ no_column }
{
    start::column(Protocol::Agreement, 0, 0, 0, &[])
}

// Writes the messages of the round to the outgoing slice: one to each column, itself included, by column number, each as long as
// `protocols::values_in` says. Returns the state after it. Refused with 11 for a state out of its ranges, 10 after the end, 7 when the column should
// listen, then 4 for a slice of another length.
pub fn speak(column: Column, out: &mut [u16]) -> Result<Column, Refusal>
    ensures { (answered_in result column ≡ speak_of column out.old) × (out.new ≡ written column out.old) }
{
    refusals::to_speak(column)?;
    let round = refusals::round_of(column.stage);
    let kind = protocols::kind_in(column.protocol, column.n, round);
    rounds::say(kind, column, out)?;
    Ok(Column {
        stage: Stage::Listen(round),
        ..column
    })
}

// Reads the messages of the round from the incoming slice, which lie there as they were written; what lies at the own place is not read.
// Returns the state after it. Refused with 11, 10, 8 when the column should speak, then 4.
pub fn listen(column: Column, inbox: &[u16]) -> Result<Column, Refusal>
    ensures { answered_in result column ≡ listen_of column inbox.now }
{
    refusals::to_listen(column)?;
    let round = refusals::round_of(column.stage);
    let next = Stage::Speak(round + 1);
    let kind = protocols::kind_in(column.protocol, column.n, round);
    rounds::hear(kind, next, column, inbox)
}

// What a column answers that is asked for its outcome: the record that it ended on, with zeros past m, or none, or the refusal; and, refused or not, the
// grade that goes with it.
#[derive(Clone, Copy)]
pub struct Output {
    pub record: Result<Option<[u8; 32]>, Refusal>,
    pub grade: u8,
}

// What the column ended on, with the grade: in an agreement the one with which it left dispersal, in a posting the outcome's. Refused with 11, then with 9
// before the end.
pub fn outcome(column: Column) -> Output
    ensures { replied_in result.record result.grade column ≡ outcome_of column }
{
    let record = endings::asked(column);
    let grade = endings::grade_shown(column, record);
    Output { record, grade }
}

// The grade alone.
pub fn grade(column: Column) -> u8
    ensures { result ≡ (outcome_of column).grade }
{
    outcome(column).grade
}

// The entry of an unsound column: its mark and zeros.
#[tactic(auto, unfolding(agreement::specs::Entries::mark_only))]
pub fn mark_only(mark: u8) -> Entry
    ensures { result ≡ mark_only mark }
{
    Entry {
        mark,
        grade: 0,
        vote: 0,
        has_record: false,
        bytes: [0; 32],
    }
}

// The entry of a sound column that came to an outcome.
pub fn sound_entry(column: Column) -> Entry
    ensures { result ≡ sound_entry column }
{
    entries::sound_entry(column, endings::asked(column))
}

// The entry of a column that may have come to none. Refused as a call for the outcome is: with 11, then with 9 before the end.
pub fn tell(column: Column) -> Result<Entry, Refusal>
    ensures given { Gives result (outcome_refusal column) (sound_entry column) }
    ensures whole { told_in result ≡ told column }
{
    let record = endings::asked(column)?;
    Ok(entries::sound_entry(column, Ok(record)))
}
