// A removal's pass: a text's gap in every area, closed.
#![tactic(auto)]

pub mod gap;
