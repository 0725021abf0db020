// A word as two halves: an upper number · 2^32 + a lower number.
ghost use Rattle.std.specs.Prelude.{◌≡◌};
ghost use Rattle.words.specs.Halves.{HALF, upper, lower};

// 2^32
pub const HALF: u64 = 4294967296;

// The upper number of a word.
pub fn upper(w: u64) -> u64
    ensures { result ≡ upper w }
{
    w / HALF
}

// The lower number of a word.
pub fn lower(w: u64) -> u64
    ensures { result ≡ lower w }
{
    w % HALF
}
