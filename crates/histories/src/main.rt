// A script of calls on a pool, and every answer. After a call that changes the pool a line tells a checksum of the memory.
// A call is a line: its name and fields, a space between them; a load's text or a feed's part follows its line as counted bytes and LF.
// `stdin` and `stdout` are made by rust/twin, an implementation of its own.
#![tactic(auto)]

mod call;
mod calls;
mod changes;
mod memory;
mod parts;
mod queries;
mod replies;

use call::{Call, Calls};
use calls::answer;
use std::io;

// What every word holds at the start.
const START: u64 = 0xA5A5A5A5A5A5A5A5;

// The words of a pool: of the memory calls get as many first ones, or as many as the script says.
const WORDS: usize = 6707;

fn main(rt: HostRuntime) -> io::Result<()> {
    let mut room = script::room();
    let count = script::read(&mut rt.stdin(), &mut room)?;
    let mut words = [START; 6756];
    let mut size = WORDS;
    let calls = Calls {
        rest: &room[..count],
    };
    for call in calls {
        if let Call::Size { words } = call {
            size = words;
        }
        answer(&rt, call, &mut words, size)?;
    }
    Ok(())
}
