// What is delivered to a column in one round of a wall: from a sound column what it said to this one, from an unsound column the values of its
// line.
#![tactic(auto)]

ghost use Rattle.std.specs.Prelude.{◌≡◌, ◌++◌, ℕ, ◌+◌, ◌*◌, ◌≤◌, eqb, length, drop};
ghost use Rattle.lists.specs.Lists.{bit, list_of};
ghost use Rattle.messages.specs.Messages.{unless_refused};
ghost use Rattle.sizes.specs.Refusals.{number_in};
ghost use Rattle.sheet.specs.Sheet.{columns};
ghost use Rattle.delivery.specs.Delivery.{mailed as mailed_of, sent as sent_of, inbox as inbox_of, refusal as refusal_of};
ghost use Rattle.delivery.specs.Places.{Lying, Placed};

use sizes::numbers::Refusal;

// A round: how many values a line has for each receiver, how many of them belong to earlier rounds, and the values of one message.
#[derive(Clone, Copy)]
pub struct Round {
    pub line: u16,
    pub offset: u16,
    pub width: u16,
}

// Value k of what column j + 1 of n said to column `to` + 1.
fn mailed(n: u8, width: u16, mail: &[u16], to: u8, j: u8, k: u16) -> u16
    ensures { result ≡ mailed_of n width mail.now (to + 1) (j + 1) k }
{
    let row = messages::place(j, n as u16, to as u16);
    let at = row * width as usize + k as usize;
    messages::value(mail, at)
}

// The message of column j + 1 of n to column `to` + 1: a sound column's lies in the mail, an unsound one's in the sheet from a place on.
#[derive(Clone, Copy)]
struct Letter {
    round: Round,
    n: u8,
    to: u8,
    j: u8,
    sound: bool,
    place: usize,
}

impl Letter {
    // Value k of it.
    fn value(self, sheet: &[u8], mail: &[u16], k: u16) -> u16
        requires { Lying sheet.now self }
        ensures { result ≡ sent_of sheet.now self.round mail.now (self.to + 1) (self.j + 1) k }
    {
        if self.sound {
            return mailed(self.n, self.round.width, mail, self.to, self.j, k);
        }
        messages::word(sheet, self.place + 2 * k as usize)
    }

    // The whole of it, written to the front of a part of the inbox. By number, which says where a value lies in the mail or in the sheet.
    fn copy(self, sheet: &[u8], mail: &[u16], part: &mut [u16])
        requires { Lying sheet.now self × (self.round.width ≤ length part.old) }
        ensures { part.new ≡ list_of (sent_of sheet.now self.round mail.now (self.to + 1) (self.j + 1)) self.round.width ++ drop self.round.width part.old }
    {
        for k in 0..self.round.width {
            let at = k as usize;
            part[at] = self.value(sheet, mail, k);
        }
    }
}

// Where the first unsound column's values for column `to` + 1 begin in the sheet: the lines follow n records.
fn first_place(sheet: &[u8], round: Round, to: u8) -> usize
    ensures { Placed sheet.now round to 0 result }
{
    let n = sheet::columns(sheet);
    let m = sheet::bytes(sheet);
    sheet::record_place(n, m, n) + 2 * messages::place(to, round.line, round.offset)
}

// Where the next unsound column's values begin, after a column with this mark: behind an unsound column's lines, which take `step` bytes.
fn next_place(place: usize, step: usize, mark: u8) -> usize
    requires { (place ≤ 17179869184) × (step ≤ 17179869184) }
    ensures { result ≡ place + bit (eqb mark 1) * step }
{
    if mark == 1 { place + step } else { place }
}

// What column `to` + 1 gets in the round, one message from each column. The marks are read once, and the place in the sheet is carried along:
// so by number.
fn deliver_messages(sheet: &[u8], round: Round, mail: &[u16], to: u8, inbox: &mut [u16])
    requires { columns sheet.now * round.width ≡ length inbox.old }
    ensures { inbox.new ≡ inbox_of sheet.now round mail.now (to + 1) }
{
    let n = sheet::columns(sheet);
    let step = 2 * messages::place(n, round.line, 0);
    let mut place = first_place(sheet, round, to);
    for j in 0..n {
        let at = messages::place(j, round.width, 0);
        let mark = sheet::mark(sheet, j + 1);
        let letter = Letter {
            round,
            n,
            to,
            j,
            sound: mark == 0,
            place,
        };
        letter.copy(sheet, mail, &mut inbox[at..]);
        place = next_place(place, step, mark);
    }
}

// The same where a message is one value, as in most rounds: a loop that runs once costs more than what it does.
fn deliver_words(sheet: &[u8], round: Round, mail: &[u16], to: u8, inbox: &mut [u16])
    requires { (round.width ≡ 1) × (columns sheet.now ≡ length inbox.old) }
    ensures { inbox.new ≡ inbox_of sheet.now round mail.now (to + 1) }
{
    let n = sheet::columns(sheet);
    let step = 2 * messages::place(n, round.line, 0);
    let mut place = first_place(sheet, round, to);
    for j in 0..n {
        let at = j as usize;
        let mark = sheet::mark(sheet, j + 1);
        let letter = Letter {
            round,
            n,
            to,
            j,
            sound: mark == 0,
            place,
        };
        inbox[at] = letter.value(sheet, mail, 0);
        place = next_place(place, step, mark);
    }
}

// The refusal of a delivery to column `own`: 1, 2, 3 for the sizes of the sheet and the receiver, 4 for an inbox of another length.
fn refusal(sheet: &[u8], round: Round, own: u8, len: usize) -> Result<(), Refusal>
    ensures { number_in result ≡ refusal_of sheet.now round own len }
{
    let n = sheet::columns(sheet);
    let m = sheet::bytes(sheet);
    sizes::refusal(n, m, own).and(messages::refusal(n, round.width, len))
}

// What column `own` gets in the round, one message from each column. Refused with 1, 2 for the sizes of the sheet, with 3 for a receiver that is
// no column of the wall, with 4 for an inbox of another length; then nothing is written.
pub fn deliver(
    sheet: &[u8],
    round: Round,
    mail: &[u16],
    own: u8,
    inbox: &mut [u16],
) -> Result<(), Refusal>
    ensures { (number_in result ≡ refusal_of sheet.now round own (length inbox.old))
        × (inbox.new ≡ unless_refused (refusal_of sheet.now round own (length inbox.old)) (inbox_of sheet.now round mail.now own) inbox.old) }
{
    refusal(sheet, round, own, inbox.len())?;
    if round.width == 1 {
        deliver_words(sheet, round, mail, own - 1, inbox);
        return Ok(());
    }
    deliver_messages(sheet, round, mail, own - 1, inbox);
    Ok(())
}
