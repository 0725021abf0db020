// A text that arrives in parts, and what is kept of it between two of them: document 02, K5.
#![tactic(auto)]

mod full;
pub mod kept;
