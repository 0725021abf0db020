// Orientation and radii of a body, from a pool or the built-in table.
#![tactic(auto)]

pub mod calls;
pub mod orientation;
pub mod radii;
pub mod source;
