// Whole walls and blocks for C and Rust, for tests and tools: the wall run and the decoder on plain slices. What a board needs is in `column_bytes`.
#![tactic(auto)]

pub mod blocks;
mod rows;
pub mod walls;
