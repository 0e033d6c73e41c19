// An entry as bytes.
ghost use Rattle.std.specs.Prelude.{◌≡◌, ◌++◌, ◌≤◌, length, drop};
ghost use Rattle.sizes.specs.Refusals.{number_in};
ghost use Rattle.messages.specs.Messages.{refusal as refusal_of, put as put_of};
ghost use Rattle.state_bytes.specs.Entry.{entry_length, entry_bytes};

use agreement::Entry;
use sizes::numbers::Refusal;

// How long an entry is: its numbers, and the record.
const NUMBERS: usize = 4;

pub const SIZE: usize = NUMBERS + 32;

// The refusal of a slice that has not an entry's length: 4.
pub fn refusal(len: usize) -> Result<(), Refusal>
    ensures { number_in result ≡ refusal_of 0 1 entry_length len }
{
    messages::refusal(1, SIZE as u16, len)
}

// To the front of a part that has room for it.
fn fill(entry: Entry, part: &mut [u8])
    requires { entry_length ≤ length part.old }
    ensures { part.new ≡ entry_bytes entry ++ drop entry_length part.old }
{
    let front = [
        entry.mark,
        entry.grade,
        entry.vote,
        u8::from(entry.has_record),
    ];
    messages::put(&front, part).unwrap();
    messages::put(&entry.bytes, &mut part[NUMBERS..]).unwrap();
}

// Writes an entry to the front of a part; one that has no room for its bytes, which are as many as SIZE, stays as it was.
pub fn put(entry: Entry, part: &mut [u8])
    ensures { (part.new ≡ put_of (entry_bytes entry) part.old) × (length (entry_bytes entry) ≡ entry_length) }
{
    if part.len() < SIZE {
        return;
    }
    fill(entry, part);
}
