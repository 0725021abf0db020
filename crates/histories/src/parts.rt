// The calls on a text in parts: open, feed, close, drop. Each answers whether it changed the pool.
use super::replies::{column, line, number};
use pool::reply::Refused;
use refusal::Refusal;
use std::io;

pub fn open(rt: &impl Print, words: &mut [u64], label: u32) -> io::Result<bool> {
    let reply = intake::begin::open_text(words, label);
    println!(rt; "open {label} {}", number(reply))?;
    Ok(reply.is_ok())
}

// The count that is told is the script's, also where fewer bytes are left.
pub fn feed(rt: &impl Print, words: &mut [u64], count: usize, part: &[u8]) -> io::Result<bool> {
    let reply = intake::parts::feed_text(words, part);
    println!(rt; "feed {count} {}", number(reply))?;
    Ok(reply.is_ok())
}

pub fn close(rt: &impl Print, words: &mut [u64]) -> io::Result<bool> {
    let reply = closing::ending::close_text(words);
    println!(rt; "close {} {} {}", number(reply), line(reply), column(reply))?;
    Ok(ends(reply))
}

pub fn drop(rt: &impl Print, words: &mut [u64]) -> io::Result<bool> {
    let reply = intake::parts::drop_text(words);
    println!(rt; "drop {}", number(reply))?;
    Ok(reply.is_ok())
}

// Whether a closing has changed the pool: one that refuses the text has too, since the text is open no more.
fn ends(reply: Result<(), Refused>) -> bool {
    match reply {
        Ok(()) => true,
        Err(refused) => of_text(refused.refusal),
    }
}

// Whether a closing's refusal is the text's, and not for want of an open one or a sound pool.
fn of_text(refusal: Refusal) -> bool {
    match refusal {
        Refusal::NotHeld => false,
        Refusal::DamagedPool => false,
        _ => true,
    }
}
