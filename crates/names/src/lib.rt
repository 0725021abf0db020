// A name in four words: packed into them, and whether they hold one.
#![tactic(auto)]

pub mod legible;
pub mod pack;
pub mod whole;
