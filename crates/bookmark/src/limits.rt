// How many words keep an open text, and how many values its numbers have.

// The words of numbers, behind which the kept line's bytes stand.
pub const NUMBERWORDS: usize = 13;

// Counts of lines, from 0 to one past the limit of bytes.
pub const COUNTS: u64 = 4194306;

// Places of a fault, in a line of 132 bytes or just behind it.
pub const PLACES: u64 = 133;

// Lengths of a line, of which 133 bytes are kept.
pub const LENGTHS: u64 = 134;
