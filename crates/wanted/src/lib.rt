// "Elements wanted": a body's variables by their names, found in a pool and counted.
#![tactic(auto)]

pub mod code;
pub mod elements;
pub mod name;
pub mod outcome;
