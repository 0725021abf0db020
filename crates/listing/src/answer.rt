// What the program prints: the listing of the text that was read, or that it could not be read.
ghost use Rattle.words.specs.Placed.{Writes};
ghost use Rattle.listing.specs.Input.{printed};

use crate::list::list;
use words::bytes::append;

// The bytes from the output's start on; how many they are.
pub fn answer(room: &[u8], input: Option<usize>, out: &mut [u8; 96315]) -> usize
    ensures { Writes 0 (printed room.now input) out.old result out.new }
{
    match input {
        Some(count) => list(script::first(room, count), out),
        None => append(b"unreadable\n", out, 0),
    }
}
