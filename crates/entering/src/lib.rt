// A complete line of an open text, stored in the memory of its pool: document 02, K5.
#![tactic(auto)]

mod counts;
pub mod line;
mod write;
