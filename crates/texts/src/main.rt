// Every text of a stream is checked, and a line says what it is: its place, the refusal's number, line and column, and how many statements
// and values it has. A text in the stream is its length in decimal, LF, its bytes, LF. `stdin` and `stdout` are made by rust/twin, an
// implementation of its own.
#![tactic(auto)]

mod answers;
mod stream;

use std::io;
use stream::Texts;

fn main(rt: HostRuntime) -> io::Result<()> {
    let mut room = script::room();
    let count = script::read(&mut rt.stdin(), &mut room)?;
    let texts = Texts {
        rest: &room[..count],
    };
    for (place, text) in (1u64..).zip(texts) {
        answers::text(&rt, place, text)?;
    }
    Ok(())
}
