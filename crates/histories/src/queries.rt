// The calls that only ask: a line of answer.
use print::{Bits, Hex};
use std::io;

// The values of a variable, into a buffer of `room` places; nothing, if the history's has not so many.
pub fn fetch(rt: &impl Print, words: &[u64], room: usize, name: &[u8]) -> io::Result<()> {
    let mut buffer = [0.0; 3072];
    if room > 3072 {
        return Ok(());
    }
    let lent = &mut buffer[..room];
    let answer = pool::fetch::fetch(words, name, lent);
    rt.write_all(b"fetch ")?;
    rt.write_all(name)?;
    match answer {
        Ok(count) => {
            print!(rt; " 0 {count}")?;
            values(rt, lent.get(..count).unwrap_or(&[]))?;
        }
        Err(refusal) => print!(rt; " {} 0", refusal::number(refusal))?,
    }
    println!(rt; "")
}

fn values(rt: &impl Print, values: &[f64]) -> io::Result<()> {
    for value in values {
        print!(rt; " {}", Bits(*value))?;
    }
    Ok(())
}

// A string by its place, into a buffer of `room` bytes; nothing, if the history's has not so many.
pub fn quoted(
    rt: &impl Print,
    words: &[u64],
    room: usize,
    place: usize,
    name: &[u8],
) -> io::Result<()> {
    let mut buffer = [0; 64];
    if room > 64 {
        return Ok(());
    }
    let lent = &mut buffer[..room];
    let answer = pool::fetch_string::fetch_string(words, name, place, lent);
    rt.write_all(b"quoted ")?;
    rt.write_all(name)?;
    match answer {
        Ok(count) => {
            print!(rt; " {place} 0 {count}")?;
            string(rt, lent.get(..count).unwrap_or(&[]))?;
        }
        Err(refusal) => print!(rt; " {place} {} 0", refusal::number(refusal))?,
    }
    println!(rt; "")
}

// A string of no bytes has no field for them.
fn string(rt: &impl Print, bytes: &[u8]) -> io::Result<()> {
    if bytes.is_empty() {
        return Ok(());
    }
    print!(rt; " {}", Hex(bytes))
}

pub fn totals(rt: &impl Print, words: &[u64]) -> io::Result<()> {
    match pool::totals::totals(words) {
        Ok(held) => {
            println!(rt;
                "totals 0 {} {} {}",
                held.texts, held.statements, held.values
            )
        }
        Err(refusal) => { println!(rt; "totals {} 0 0 0", refusal::number(refusal)) }
    }
}
