// Lists of memory words: nothing here knows what the words mean.
#![tactic(auto)]

pub mod bytes;
pub mod compare;
pub mod half;
pub mod read;
pub mod scan;
pub mod write;
