// The limits of a pool, and the places of its areas (docs/LAYOUT.md).

// "up to 16 texts, .. 512 statements and 3,072 values"; strings' "bytes in a further 8,192"
pub const TEXTS: u64 = 16;

pub const STATEMENTS: u64 = 512;

pub const VALUES: u64 = 3072;

pub const BYTES: u64 = 8192;

// The words of the strings' bytes, eight to a word.
pub const BYTEWORDS: usize = 1024;

// Where the four totals stand.
pub const TEXT_COUNT: usize = 0;

pub const STATEMENT_COUNT: usize = 1;

pub const VALUE_COUNT: usize = 2;

pub const BYTE_COUNT: usize = 3;

// Where the open text's words begin, of which the first says whether one is open; and which of them are read here: how many values and bytes
// of strings it has so far, how many bytes are kept of its line, and how many bytes came.
pub const OPEN_AT: usize = 4;

pub const OPEN_VALUES: usize = 5;

pub const OPEN_BYTES: usize = 6;

pub const KEPT_LENGTH: usize = 14;

pub const BYTES_SO_FAR: usize = 16;

// Where each area begins.

pub const TEXTS_AT: usize = 34;

pub const HEADS_AT: usize = 51;

pub const NAMES_AT: usize = 563;

pub const VALUES_AT: usize = 2611;

pub const BYTES_AT: usize = 5683;

// The size of the memory, in words.
pub const WORDS: usize = 6707;

// A word's upper number stands above 2^32.
pub use words::half::HALF;

// "whose kept line is over 133 bytes or whose byte count is over 4,194,305"
pub const LONGEST_KEPT: u64 = 133;

pub const MOST_COUNTED: u64 = 4194305;
