// The column for C and Rust: calls on numbers and slices, a column's state being bytes that the caller lends. Each answers 0 or document 01's
// number of a refusal; a refused call leaves every slice as it was. include/column.h declares them.
#![tactic(auto)]

mod answers;
pub mod columns;
pub mod numbers;
