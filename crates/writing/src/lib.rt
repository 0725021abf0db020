// The second pass of a load: a text's lines written behind what is held.
#![tactic(auto)]

pub mod give;
pub mod write;
