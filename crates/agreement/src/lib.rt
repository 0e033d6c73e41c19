// A column of a wall: the types of its state and of an entry. What the calls do, in every protocol, is defined in specs/, and the
// third demand and Definition 3.10 are proved of the definitions there. The calls themselves stand above, in crates of their own; there is no
// code here.
#![tactic(auto)]

use protocols::Protocol;

// What a run ended on. The record's bytes stand in the column.
#[derive(Clone, Copy)]
pub enum Outcome {
    Nothing,
    Record,
}

// What a column is to do: to speak or to listen in a round, counted from 1, or nothing more.
#[derive(Clone, Copy)]
pub enum Stage {
    Speak(u8),
    Listen(u8),
    Ended(Outcome),
}

// A column's state: what it runs, n columns, m bytes, its own number, its record in 32 places, and what the rounds made of them. Flags lie by
// column number, kept points by block.
#[derive(Clone, Copy)]
pub struct Column {
    pub protocol: Protocol,
    pub n: u8,
    pub m: u8,
    pub own: u8,
    pub bytes: [u8; 32],
    pub proposal: u16,
    pub stage: Stage,
    pub agreements: [bool; 31],
    pub reports: [bool; 31],
    pub grade: u8,
    pub vote: u8,
    pub firm: bool,
    pub kept: [u16; 32],
}

// What one column of a wall came to: its mark, the grade of its outcome, its last vote, whether it ended on a record, and the record's bytes,
// zeros past m and where there is none. The entry of an unsound column is its mark and zeros.
#[repr(C)]
#[derive(Clone, Copy)]
pub struct Entry {
    pub mark: u8,
    pub grade: u8,
    pub vote: u8,
    pub has_record: bool,
    pub bytes: [u8; 32],
}
