// A text taken in by parts: document 02, K5, "Let a load be opened under a label, fed with parts of any length, also of none, and closed."
#![tactic(auto)]

pub mod begin;
pub mod parts;
pub mod state;
