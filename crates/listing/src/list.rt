// The listing of a text: it is loaded into an empty pool, and the pool is shown; or it is refused.
ghost use Rattle.std.specs.Prelude.{◌≡◌, length};
ghost use Rattle.words.specs.Placed.{Room, Writes};
ghost use Rattle.layout.specs.Limits.{WORDS};
ghost use Rattle.listing.specs.Listing.{position, refusal_line};
ghost use Rattle.listing.specs.Lists.{Lists};

use loading::load::load;
use pen::{write_byte, write_entry, write_phrase};
use pool::empty::make_empty;
use refusal::number;
use shown::show;

// The label under which the text is loaded.
const LABEL: u32 = 0;

// The bytes from the output's start on; how many they are.
pub fn list(text: &[u8], out: &mut [u8; 96315]) -> usize
    ensures { Lists text.now out.old result out.new }
{
    let mut memory = no_memory();
    // A memory of the fixed size is never refused.
    let _ = make_empty(&mut memory);
    let reply = load(&mut memory, LABEL, text);
    match reply {
        Ok(()) => show(&memory, out),
        Err(refused) => write_refusal(
            out,
            number(refused.refusal) as u64,
            refused.line as u64,
            refused.column as u64,
        ),
    }
}

// "The listing prints `refused N line L column C`, 0 where there is none."
fn write_refusal(out: &mut [u8], number: u64, line: u64, column: u64) -> usize
    requires { Room 0 (refusal_line number line column) out.old }
    ensures { Writes 0 (refusal_line number line column) out.old result out.new }
{
    let spaced = write_phrase(out, 0, b"refused", number);
    let at = write_byte(out, spaced, b' ');
    write_position(out, at, line, column)
}

// The line and the column, to the end of the line that is printed.
fn write_position(out: &mut [u8], at: usize, line: u64, column: u64) -> usize
    requires { Room at (position line column) out.old }
    ensures { Writes at (position line column) out.old result out.new }
{
    let spaced = write_phrase(out, at, b"line", line);
    let next = write_byte(out, spaced, b' ');
    write_entry(out, next, b"column", column)
}

// Room for a pool.
fn no_memory() -> [u64; 6707]
    ensures { WORDS ≡ length result }
{
    [0; 6707]
}
