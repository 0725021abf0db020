// Angles in degrees: document 01, "Evaluation".
#![tactic(auto)]

mod remainder;
pub mod series;
pub mod sine;
pub mod wrap;
