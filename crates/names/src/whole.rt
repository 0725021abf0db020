// Eight bytes of a name in one word, tested at once.
ghost use Rattle.std.specs.Prelude.{◌≡◌, true, eqb};
ghost use Rattle.plain.specs.Runs.{skip};
ghost use Rattle.value.specs.Classes.{name_byte};
ghost use Rattle.words.specs.Halves.{all};
ghost use Rattle.octets.specs.Octets.{bytes_of};

// The highest bit of each byte.
const TOPS: u64 = 0x8080808080808080;

// What makes 128 in each byte of the first of a range, and of the first past it.
const FROM_DIGIT: u64 = 0x5050505050505050;

const PAST_DIGIT: u64 = 0x4646464646464646;

const FROM_UPPER: u64 = 0x3f3f3f3f3f3f3f3f;

const PAST_UPPER: u64 = 0x2525252525252525;

const FROM_UNDERSCORE: u64 = 0x2121212121212121;

const PAST_UNDERSCORE: u64 = 0x2020202020202020;

const FROM_LOWER: u64 = 0x1f1f1f1f1f1f1f1f;

const PAST_LOWER: u64 = 0x0505050505050505;

// A name byte, 48, in each byte.
const FILL: u64 = 0x3030303030303030;

// Where this holds, every byte of the word is a name byte: it is in a range if it reaches the first of it and not the first past it.
pub fn is_whole(w: u64) -> bool
    ensures { result ≡ true → all name_byte (bytes_of w) ≡ true }
{
    if w & TOPS != 0 {
        return false;
    }
    let digit = (w + FROM_DIGIT) ^ (w + PAST_DIGIT);
    let upper = (w + FROM_UPPER) ^ (w + PAST_UPPER);
    let underscore = (w + FROM_UNDERSCORE) ^ (w + PAST_UNDERSCORE);
    let lower = (w + FROM_LOWER) ^ (w + PAST_LOWER);
    (digit ^ upper ^ underscore ^ lower) & TOPS == TOPS
}

// The word with its last zero bytes taken away and as many name bytes put in front: it tapers exactly where the word does.
pub fn filled(w: u64) -> u64
    ensures { all (eqb 0) (skip name_byte (bytes_of result)) ≡ all (eqb 0) (skip name_byte (bytes_of w)) }
{
    let s = u64::trailing_zeros(w) / 8 % 8 * 8;
    (w >> s) + (FILL - (FILL >> s))
}
