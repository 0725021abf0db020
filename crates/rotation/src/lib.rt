// A body's orientation and radii: document 01, "Evaluation", and the built-in table of "Elements wanted".
#![tactic(auto)]

pub mod builtin;
pub mod code;
pub mod elements;
pub mod epoch;
pub mod evaluation;
pub mod matrix;
pub mod nutation;
pub mod table;
