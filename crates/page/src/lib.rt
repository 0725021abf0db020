// A page: a pool's memory, and a pen on it behind what is held. A statement is opened, values are stored, and told to its head.
#![tactic(auto)]

pub mod pen;
pub mod store;
