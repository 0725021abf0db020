// How long a line may be: document 02, K1, "A data line may have 132 bytes; a line of a text section may have any length."
ghost use Rattle.std.specs.Prelude.{◌≡◌};
ghost use Rattle.text.specs.Lengths.{counts_as_data, too_long};

use crate::delimiters::Mark;
use statement::values::Reader;

// No data or delimiter line is over so many bytes.
pub const LONGEST_LINE: usize = 132;

// The line is a data or delimiter line, and over the limit.
pub fn is_too_long(mark: Mark, reader: Reader, long: usize) -> bool
    ensures { result ≡ too_long mark reader long }
{
    if LONGEST_LINE < long {
        return counts_as_data(mark, reader);
    }
    false
}

// The line is a data or delimiter line.
fn counts_as_data(mark: Mark, reader: Reader) -> bool
    ensures { result ≡ counts_as_data mark reader }
{
    match mark {
        Mark::Data => true,
        Mark::Text => true,
        Mark::Plain => match reader {
            Reader::Text => false,
            Reader::Data => true,
            Reader::List(_) => true,
        },
    }
}
