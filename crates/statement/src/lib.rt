// A statement as far as one line has it: document 01, "Name", "Then, blanks optional, `=` (direct) or `+=` (append). Then a number, or `(`".
#![tactic(auto)]

pub mod head;
pub mod values;
