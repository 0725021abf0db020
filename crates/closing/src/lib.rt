// The end of a text in parts: "the outcome at closing is that of one load of the joined bytes".
#![tactic(auto)]

pub mod ending;
