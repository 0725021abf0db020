// The names that a query of the pool may read, for every code of the input: a code is a line, in decimal.
// `stdout` is what an implementation of its own, rust/twin, prints of the same `stdin`.
#![tactic(auto)]

mod answers;

use std::io;

fn main(rt: HostRuntime) -> io::Result<()> {
    let mut room = script::room();
    let count = script::read(&mut rt.stdin(), &mut room)?;
    for line in room[..count].split(|byte| *byte == b'\n') {
        answers::answer(&rt, line)?;
    }
    Ok(())
}
