// The listing of the text on standard input, on standard output: document 01, "The listing".
#![tactic(auto)]

mod answer;
mod input;
mod list;

ghost use Rattle.std.specs.Prelude.{◌≡◌, length};
ghost use Rattle.listing.specs.Lists.{SIZE};

use answer::answer;
use input::read;
use std::io;

fn main(rt: HostRuntime) -> io::Result<()> {
    let mut room = text_room();
    let input = read(&mut rt.stdin(), &mut room);
    let mut out = listing_room();
    let end = answer(&room, input, &mut out);
    rt.write_all(&out[..end])
}

// Room for one byte more than the longest text has, so that a longer input is refused and never cut.
fn text_room() -> [u8; 65537]
    ensures { 65537 ≡ length result }
{
    [0; 65537]
}

// Room for every listing.
fn listing_room() -> [u8; 96315]
    ensures { SIZE ≡ length result }
{
    [0; 96315]
}
