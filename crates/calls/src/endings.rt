// What a column ended on, and with which grade.
ghost use Rattle.std.specs.Prelude.{◌≡◌, Ok};
ghost use Rattle.agreement.specs.Replies as R;
ghost use Rattle.agreement.specs.Replies.{reply_in, bytes_in};
ghost use Rattle.agreement.specs.Calls.{ending as ending_of, shown as shown_of, grade_shown, outcome as outcome_of};

use agreement::{Column, Outcome, Stage};
use sizes::numbers::Refusal;

// The record that was ended on; none before the end.
#[tactic(auto, unfolding(agreement::specs::Calls::ending, agreement::specs::Calls::shown))]
pub(super) fn record(column: Column) -> Option<[u8; 32]>
    ensures { (reply_in (Ok result) ≡ R.Ended (ending_of column.stage)) × (bytes_in (Ok result) ≡ shown_of (R.Ended (ending_of column.stage)) column.bytes) }
{
    match column.stage {
        Stage::Ended(Outcome::Record) => Some(column.bytes),
        _ => None,
    }
}

// The same of a column that may not have ended: refused with 11, then with 9.
pub(super) fn asked(column: Column) -> Result<Option<[u8; 32]>, Refusal>
    ensures { (reply_in result ≡ (outcome_of column).reply) × (bytes_in result ≡ (outcome_of column).bytes) }
{
    refusals::to_ask(column)?;
    Ok(record(column))
}

// The grade that goes with what a column answered: the dispersal grade, or in a posting that of the outcome. There a dispersal grade 2 stays 2,
// whether the column ended on a record or on none; it is 0 where the call was refused.
#[tactic(auto, unfolding(agreement::specs::Calls::grade_shown, agreement::specs::Calls::grade_in))]
pub(super) fn grade_shown(column: Column, asked: Result<Option<[u8; 32]>, Refusal>) -> u8
    ensures { result ≡ grade_shown column.protocol column.grade (reply_in asked) }
{
    if !protocols::posts(column.protocol) {
        return column.grade;
    }
    match asked {
        Ok(_) if column.grade == 2 => 2,
        Ok(Some(_)) => 1,
        _ => 0,
    }
}
