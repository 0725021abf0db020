// The calls that change a pool: a line of answer; and whether they changed it.
use super::replies::{column, line, number};
use std::io;

pub fn make_empty(rt: &impl Print, words: &mut [u64]) -> io::Result<bool> {
    let reply = pool::empty::make_empty(words);
    println!(rt; "empty {}", number(reply))?;
    Ok(reply.is_ok())
}

pub fn load(rt: &impl Print, words: &mut [u64], label: u32, text: &[u8]) -> io::Result<bool> {
    let reply = loading::load::load(words, label, text);
    println!(rt;
        "load {label} {} {} {}",
        number(reply),
        line(reply),
        column(reply)
    )?;
    Ok(reply.is_ok())
}

pub fn remove(rt: &impl Print, words: &mut [u64], label: u32) -> io::Result<bool> {
    let reply = pool::remove::remove(words, label);
    println!(rt; "remove {label} {}", number(reply))?;
    Ok(reply.is_ok())
}

pub fn clear(rt: &impl Print, words: &mut [u64]) -> io::Result<bool> {
    let reply = pool::empty::clear(words);
    println!(rt; "clear {}", number(reply))?;
    Ok(reply.is_ok())
}
