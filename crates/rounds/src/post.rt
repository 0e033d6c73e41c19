// Round 1 of a posting: the poster's record.
#![tactic(auto, using(sizes::proofs::Refusals::there, messages::proofs::Laws::if_done, crate::specs::Ready::post_accepted, crate::specs::Ready::post_to_all), unfolding(agreement::specs::Rounds::hears, agreement::specs::Post::posted_by, agreement::specs::Post::sent_byte, agreement::specs::Post::posted_byte, agreement::specs::Post::taken_record, agreement::specs::Post::posted, messages::specs::Messages::said, messages::specs::Messages::read_byte, dissemination::specs::Laws::silenced))]

ghost use Rattle.std.specs.Prelude.{◌≡◌, eqb, ltb, length};
ghost use Rattle.lists.specs.Lists.{all};
ghost use Rattle.messages.specs.Messages.{read_byte};
ghost use Rattle.dissemination.specs.Laws.{silenced};
ghost use Rattle.protocols.specs.declared.Kind.TheVariants.{Post};
ghost use Rattle.agreement.specs.Post.{posted_by, sent_byte, posted_byte, taken_record, posted as posted_of};
ghost use Rattle.agreement.specs.Rounds.{hears};
ghost use Rattle.rounds.specs.Rounds.{to_columns};
ghost use Rattle.rounds.specs.Ready.{Ready};

use agreement::{Column, Stage};
use field::Field;
use std::array;

// What the column says: the poster its record, the others nothing.
fn message(column: Column, poster: u8) -> [u16; 32]
    ensures { result ≡ silenced (eqb column.own poster) column.bytes }
{
    if column.own != poster {
        return [Field::BLANK; 32];
    }
    // by index: `map` takes some 530 instructions more
    array::from_fn(|p| column.bytes[p] as u16)
}

// Says it to all.
pub(super) fn say(column: Column, poster: u8, out: &mut [u16])
    requires { Ready (Post poster) column (length out.old) }
    ensures { out.new ≡ to_columns (Post poster) column }
{
    let mine = message(column, poster);
    messages::to_all(column.n, column.m as u16, &mine, out).unwrap();
}

// Value k of the poster's message; no other message is read.
fn posted_by(column: Column, poster: u8, inbox: &[u16], k: u16) -> u16
    ensures { result ≡ posted_by poster column inbox.now k }
{
    messages::value(
        inbox,
        messages::place(poster.saturating_sub(1), column.m as u16, k),
    )
}

// Whether all values of the poster's message are bytes.
fn are_bytes(column: Column, poster: u8, inbox: &[u16]) -> bool
    ensures { result ≡ all (sent_byte (posted_by poster column inbox.now)) column.m }
{
    (0..column.m).all(move |k| messages::read_byte(posted_by(column, poster, inbox, k as u16))
        < 256)
}

// Byte p of the record that was posted; 0 past m, and for a value that is no byte.
fn byte_at(column: Column, poster: u8, inbox: &[u16], p: usize) -> u8
    ensures { result ≡ posted_byte column.m (posted_by poster column inbox.now) p }
{
    if column.m as usize <= p {
        return 0;
    }
    u8::try_from(posted_by(column, poster, inbox, p as u16)).unwrap_or(0)
}

// The record that another column takes: zeros where a value of the message is no byte.
fn taken(column: Column, poster: u8, inbox: &[u16]) -> [u8; 32]
    ensures { result ≡ taken_record column.m (posted_by poster column inbox.now) }
{
    if !are_bytes(column, poster, inbox) {
        return [0u8; 32];
    }
    array::from_fn(|p| byte_at(column, poster, inbox, p))
}

// The record after the poster spoke; the poster keeps its own.
fn posted(column: Column, poster: u8, inbox: &[u16]) -> [u8; 32]
    ensures { result ≡ posted_of poster column inbox.now }
{
    if column.own == poster {
        return column.bytes;
    }
    taken(column, poster, inbox)
}

// The column takes the record that was posted.
pub(super) fn hear(column: Column, poster: u8, next: Stage, inbox: &[u16]) -> Column
    ensures { result ≡ hears (Post poster) next column inbox.now }
{
    Column {
        bytes: posted(column, poster, inbox),
        stage: next,
        ..column
    }
}
