// A column of a posting by the same calls: column 2 of four, to which column 1 posts 41. The others say what sound columns say that hold
// it, the same to all, so that a round's inbox has one value in all its places.
use super::{listen, spoken, write_outcome};
use calls::{Column, Protocol};
use std::io;

// What all say in a round: that they report, or the byte of the record, which is its point everywhere.
fn word(round: u8) -> u16 {
    match round {
        3 | 4 => 1,
        _ => 0x41,
    }
}

// One line: what the column answers for its outcome, and with which grade.
fn write_line(rt: &impl Print, column: Column) -> io::Result<()> {
    let asked = calls::outcome(column);
    print!(rt; "2 posted grade {}", asked.grade)?;
    write_outcome(rt, asked.record)
}

// All rounds, 1 to 6.
pub(super) fn run(rt: &impl Print) -> io::Result<()> {
    let made = calls::fresh(Protocol::Posting(1), 4, 1, 2, &[0u8]);
    let mut column = made.unwrap_or(calls::no_column());
    write_line(rt, column)?;
    for round in 1..7u8 {
        let _ = spoken(&mut column, 2, round);
        listen(&mut column, 2, round, [word(round); 8]);
    }
    write_line(rt, column)
}
