// Where an open text stands between two parts, and the words of a pool that keep it: document 02, K5.
#![tactic(auto)]

mod limits;
pub mod mark;
mod number;
pub mod read;
pub mod settle;
pub mod write;
