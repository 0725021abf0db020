// A body's nutation: its variables and its system's angles, found in a pool and counted, and the answer by them.
#![tactic(auto)]

pub mod answer;
pub mod found;
pub mod terms;
