// What a wall's entry shows of a sound column.
ghost use Rattle.std.specs.Prelude.{◌≡◌};
ghost use Rattle.agreement.specs.Replies.{reply_in, replied_in};
ghost use Rattle.agreement.specs.Calls.{grade_shown};
ghost use Rattle.agreement.specs.Entries.{entry_asked};

use super::endings;
use agreement::{Column, Entry};
use sizes::numbers::Refusal;

// By what it answered when it was asked for its outcome.
#[tactic(auto, unfolding(agreement::specs::Entries::entry_asked, agreement::specs::Entries::ends_on_record))]
pub(super) fn sound_entry(column: Column, asked: Result<Option<[u8; 32]>, Refusal>) -> Entry
    ensures { result ≡ entry_asked (replied_in asked (grade_shown column.protocol column.grade (reply_in asked)) column) }
{
    let record = asked.unwrap_or(None);
    Entry {
        mark: 0,
        grade: endings::grade_shown(column, asked),
        vote: column.vote,
        has_record: record.is_some(),
        bytes: record.unwrap_or([0; 32]),
    }
}
