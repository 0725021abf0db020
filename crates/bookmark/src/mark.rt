// Where an open text stands between two parts.
use feeding::kept::Kept;
use statement::values::Reader;
use text::TextFault;

// What its complete lines came to: they are stored so far; there is no room for them, but they are read on; or one is faulty.
#[derive(Clone, Copy)]
pub enum Standing {
    Storing(Reader),
    Overflowed(Reader),
    Faulted(TextFault),
}

// The same, and how many statements, values and bytes of strings are stored behind what the pool holds.
#[derive(Clone, Copy)]
pub struct Entered {
    pub standing: Standing,
    pub statements: usize,
    pub values: usize,
    pub bytes: usize,
}

// How many lines are complete, and how long the last of them is, as far as it is kept; what is kept of the line that goes on, and whether a CR
// came after it, of which the next byte tells whether it is the line's; how many bytes came in all.
#[derive(Clone, Copy)]
pub struct Bookmark {
    pub entered: Entered,
    pub number: usize,
    pub long: usize,
    pub kept: Kept,
    pub pending: bool,
    pub total: usize,
}
