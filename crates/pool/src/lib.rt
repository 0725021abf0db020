// The calls on a pool: document 01, "What the library holds".
#![tactic(auto)]

pub mod empty;
pub mod fetch;
pub mod fetch_string;
pub mod held;
pub mod ready;
pub mod remove;
pub mod reply;
pub mod totals;
