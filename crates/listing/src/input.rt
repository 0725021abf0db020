// "The listing program reads one text from standard input, up to the text limit": what came of it, a text or a read that failed.
ghost use Rattle.listing.specs.Input.{Within, Brings};

use std::io::Read;

// Reads until the input ends or the room is full: so many bytes from the room's start on; or none, where a read failed, so that what
// came is no whole text.
pub fn read<R: Read>(input: &mut R, room: &mut [u8]) -> Option<usize>
    ensures within { Within result room.new }
    ensures bytes { Brings (R.remaining input.old) result room.new }
{
    script::read(input, room).ok()
}
