// Counts that stop growing: of bytes and lines one past the limit, of a line's length where it is kept no further.
ghost use Rattle.std.specs.Prelude.{◌≡◌};
ghost use Rattle.feeding.specs.Parts.{more, capped};

use feeding::kept::ROOM;

// The most bytes that a text in parts has: document 02, K5, "with 4,194,304 bytes as the limit here".
pub const MOST: usize = 4194304;

// One more, but no more than one past the limit. No `min` serves: a count that is past it stays as it is.
pub fn more(n: usize) -> usize
    ensures { result ≡ more n }
{
    if MOST < n { n } else { n + 1 }
}

// A length as far as a line is kept.
pub fn capped(n: usize) -> usize
    ensures { result ≡ capped n }
{
    n.min(ROOM)
}
