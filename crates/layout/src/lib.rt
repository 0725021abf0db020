// A pool's memory: its areas, and whether it is damaged.
#![tactic(auto)]

pub mod area;
pub mod check;
pub mod front;
pub mod head;
pub mod limits;
pub mod taken;
pub mod undamaged;
