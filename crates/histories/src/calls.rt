// The answers to the calls of a script.
use super::call::Call;
use super::{changes, memory, parts, queries};
use print::Word;
use std::io;

// The answer to a call on the first `size` words; none, if the memory has not so many.
pub fn answer(rt: &impl Print, call: Call, words: &mut [u64], size: usize) -> io::Result<()> {
    if words.len() < size {
        return Ok(());
    }
    if let Call::Put { at, word } = call {
        memory::put(at, word, words);
    }
    if answer_on(rt, call, &mut words[..size])? {
        println!(rt; "memory {}", Word(memory::checksum(words)))?;
    }
    Ok(())
}

// The answer to a call on a pool; whether the call has changed it.
fn answer_on(rt: &impl Print, call: Call, words: &mut [u64]) -> io::Result<bool> {
    match call {
        Call::Empty => changes::make_empty(rt, words),
        Call::Load { label, text } => changes::load(rt, words, label, text),
        Call::Remove { label } => changes::remove(rt, words, label),
        Call::Clear => changes::clear(rt, words),
        Call::Open { label } => parts::open(rt, words, label),
        Call::Feed { count, part } => parts::feed(rt, words, count, part),
        Call::Close => parts::close(rt, words),
        Call::Drop => parts::drop(rt, words),
        _ => {
            ask(rt, call, words)?;
            Ok(false)
        }
    }
}

// The answer to a call that only asks.
fn ask(rt: &impl Print, call: Call, words: &[u64]) -> io::Result<()> {
    match call {
        Call::Fetch { room, name } => queries::fetch(rt, words, room, name),
        Call::Quoted { room, place, name } => queries::quoted(rt, words, room, place, name),
        Call::Totals => queries::totals(rt, words),
        _ => Ok(()),
    }
}
