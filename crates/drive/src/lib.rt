// The globe drive: the motor position that a meridian asks for, and the move there. It stands on the public face of the library and sees of
// it what is promised: its contracts, and that a meridian is at least 0 and below 360.
#![tactic(auto)]

pub mod answer;
pub mod calls;
mod ring;
mod way;
