// The kinds of bytes that the text rules name, and runs of them: document 01, "the longest run of", "a maximal run".
ghost use Rattle.std.specs.Prelude.{◌≡◌, drop};
ghost use Rattle.plain.specs.Runs.{run, past};
ghost use Rattle.value.specs.Classes.{is, stands};
ghost use Rattle.value.specs.Masks.{bit, Tells};

// A kind of bytes.
#[derive(Clone, Copy)]
pub enum Class {
    Blank,
    Fair,
    Name,
    Separator,
    Value,
    Line,
}

// The byte is of the class.
pub fn in_class(k: Class, b: u8) -> bool
    ensures { result ≡ is k b }
{
    holds(mask_of(k), b)
}

// Where the run of such bytes that starts at `at` ends.
pub fn past(k: Class, line: &[u8], at: usize) -> usize
    ensures { result ≡ past (is k) line.now at }
{
    let mask = mask_of(k);
    for i in at..line.len() {
        if !holds(mask, line[i]) {
            return i;
        }
    }
    at.max(line.len())
}

// The run of such bytes that starts at `at`.
pub fn run(k: Class, line: &[u8], at: usize) -> &[u8]
    ensures { result.now ≡ run (is k) (drop at line.now) }
{
    let end = past(k, line, at);
    if end <= line.len() {
        return &line[at..end];
    }
    &line[..0]
}

// The byte c stands at a place of the line.
pub fn stands(c: u8, line: &[u8], at: usize) -> bool
    ensures { result ≡ stands c line.now at }
{
    if at < line.len() {
        return line[at] == c;
    }
    0 == c
}

// A class as bits: those of two words for the bytes below 64 and below 128, and one answer for all bytes above.
#[derive(Clone, Copy)]
pub struct Mask {
    pub low: u64,
    pub high: u64,
    pub beyond: bool,
}

fn mask_of(k: Class) -> Mask
    ensures { Tells k result }
{
    match k {
        Class::Blank => Mask {
            low: 0x0000000100000200,
            high: 0x0000000000000000,
            beyond: false,
        },
        Class::Fair => Mask {
            low: 0xffffffff00000200,
            high: 0x7fffffffffffffff,
            beyond: false,
        },
        Class::Name => Mask {
            low: 0x03ff000000000000,
            high: 0x07fffffe87fffffe,
            beyond: false,
        },
        Class::Separator => Mask {
            low: 0x0000100100000200,
            high: 0x0000000000000000,
            beyond: false,
        },
        Class::Value => Mask {
            low: 0xffffecfefffffdff,
            high: 0xffffffffffffffff,
            beyond: true,
        },
        Class::Line => Mask {
            low: 0xfffffffffffffbff,
            high: 0xffffffffffffffff,
            beyond: true,
        },
    }
}

fn holds(mask: Mask, b: u8) -> bool
    ensures { result ≡ bit mask b }
{
    if b < 64 {
        return (mask.low >> b) % 2 == 1;
    }
    if b < 128 {
        return (mask.high >> (b - 64)) % 2 == 1;
    }
    mask.beyond
}
