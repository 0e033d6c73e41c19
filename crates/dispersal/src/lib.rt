// Graded dispersal on plain data: Protocol 3.2. `exchange` is round 1, `reports` rounds 2 and 3 and the grade.
#![tactic(auto)]

pub mod exchange;
pub mod reports;
