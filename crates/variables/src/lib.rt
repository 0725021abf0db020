// A variable in a pool's memory: where it begins, its numbers, and its strings.
#![tactic(auto)]

pub mod gather;
pub mod legal;
pub mod name;
pub mod spot;
pub mod string;
pub mod variable;
pub mod walk;
