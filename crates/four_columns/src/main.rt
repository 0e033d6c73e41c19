// Plays two runs of a wall of four columns, with records of one byte, by the public calls of a column. In the first run all four are
// sound and column 4 holds another record; in the second, document 01's worked sheet, column 4 is unsound and tells every neighbour
// something else. A line is what a column answers for its outcome, column 1 also before the run. Then a column of a posting is played by itself.
#![tactic(auto)]

mod posted;

ghost use Rattle.std.specs.Prelude.{◌≤◌};

use calls::{Column, Protocol, Refusal};
use field::Field;
use std::{array, io};

// What a column says in a round: a message of `width` values to each of the four.
type Said = [u16; 8];

// A fresh column with a record of one byte.
fn made(own: u8, byte: u8) -> Column {
    calls::fresh(Protocol::Agreement, 4, 1, own, &[byte]).unwrap_or(calls::no_column())
}

// The values of a message: two in the exchange, which is one round, and one in every other.
fn width(exchange: u8, round: u8) -> usize
    ensures { result ≤ 2 }
{
    if round == exchange { 2 } else { 1 }
}

// Lets the column speak. A refused call would leave it, and the blanks, as they are.
fn spoken(column: &mut Column, exchange: u8, round: u8) -> Said {
    let mut out = [Field::BLANK; 8];
    let len = 4 * width(exchange, round);
    *column = calls::speak(*column, &mut out[..len]).unwrap_or(*column);
    out
}

// Lets it listen.
fn listen(column: &mut Column, exchange: u8, round: u8, inbox: Said) {
    let len = 4 * width(exchange, round);
    *column = calls::listen(*column, &inbox[..len]).unwrap_or(*column);
}

// The messages to column `to` + 1 in a round, one from each of the four.
fn delivered(to: u8, round: u8, said: &[Said; 4]) -> Said {
    let w = width(1, round);
    array::from_fn(|p| {
        if 4 * w <= p {
            return Field::BLANK;
        }
        messages::value(&said[p / w], messages::place(to, w as u16, (p % w) as u16))
    })
}

// What column 4 says in the worked sheet: to columns 1 and 2 that it holds 41 as they do, and to column 1 alone its second report.
fn lies(round: u8) -> Said {
    let blank = Field::BLANK;
    match round {
        1 => [0x41, 0x41, 0x41, 0x41, blank, blank, blank, blank],
        2 => [1, 1, blank, blank, blank, blank, blank, blank],
        3 => [1, blank, blank, blank, blank, blank, blank, blank],
        _ => [blank; 8],
    }
}

// One round: each column speaks, then each listens.
fn play(wall: &mut [Column; 4], round: u8, lying: bool) {
    let mut said = [[Field::BLANK; 8]; 4];
    for (column, out) in wall.iter_mut().zip(&mut said) {
        *out = spoken(column, 1, round);
    }
    if lying {
        said[3] = lies(round);
    }
    for (to, column) in wall.iter_mut().enumerate() {
        listen(column, 1, round, delivered(to as u8, round, &said));
    }
}

// The end of a line: what a column answers for its outcome.
fn write_outcome(rt: &impl Print, asked: Result<Option<[u8; 32]>, Refusal>) -> io::Result<()> {
    match asked {
        Ok(Some(bytes)) => println!(rt; " record {:02x}", bytes[0]),
        Ok(None) => println!(rt; " record none"),
        Err(why) => println!(rt; " refused {}", why.number()),
    }
}

// One line: what the column answers for its outcome.
fn write_line(rt: &impl Print, column: Column) -> io::Result<()> {
    print!(rt; "{} grade {} bit {}", column.own, column.grade, column.vote)?;
    write_outcome(rt, calls::outcome(column).record)
}

// A run with the records of columns 3 and 4; columns 1 and 2 hold 41. It has rounds 1 to 11.
fn run(rt: &impl Print, c: u8, d: u8, lying: bool) -> io::Result<()> {
    let mut wall = [made(1, 0x41), made(2, 0x41), made(3, c), made(4, d)];
    write_line(rt, wall[0])?;
    for round in 1..12u8 {
        play(&mut wall, round, lying);
    }
    write_line(rt, wall[0])?;
    write_line(rt, wall[1])?;
    write_line(rt, wall[2])?;
    if lying {
        return println!(rt; "4 unsound");
    }
    write_line(rt, wall[3])
}

fn main(rt: HostRuntime) -> io::Result<()> {
    run(&rt, 0x41, 0x42, false)?;
    run(&rt, 0x42, 0x41, true)?;
    posted::run(&rt)
}
