// A text loaded at once, put last among those held.
#![tactic(auto)]

pub mod load;
