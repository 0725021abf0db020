// What the programs read: lines, fields, numbers and counted bytes of an input.
// Every function takes any bytes; what is not there is empty, and what is no number is broken.
#![tactic(auto)]

pub mod numbers;

ghost use Rattle.std.specs.Prelude.{◌≡◌, ◌-◌, ◌<◌, ◌≤◌, length, take, drop, IfOk};
ghost use Rattle.std.specs.Io.{ReadsAtMost};
ghost use Rattle.std.specs.Io.KnownBytes.{Consumes, IsAtEnd};

use std::io::{self, Read};

// Room for the longest input.
pub fn room() -> [u8; 400000]
    ensures { 400000 ≡ length result }
{
    [0; 400000]
}

// Reads until the room is full or the input ends; how many bytes came, from the room's start on. A `while`, for the place goes on by what
// a read brought.
pub fn read<R: Read>(input: &mut R, room: &mut [u8]) -> io::Result<usize>
    ensures count { ReadsAtMost result room.new }
    ensures bytes { IfOk result (λ n. Consumes (R.remaining input.old) (R.remaining input.new) (take n room.new)) }
    ensures end { IfOk result (λ n. n < length room.new → IsAtEnd (R.remaining input.new)) }
{
    let mut at = 0;
    while at < room.len() {
        let more = input.read(&mut room[at..])?;
        if more == 0 {
            return Ok(at);
        }
        at += more;
    }
    Ok(at)
}

// What stands before the first such byte; all, if there is none.
pub fn before(bytes: &[u8], byte: u8) -> &[u8] {
    first(bytes, find(bytes, byte))
}

// What stands after the first such byte; nothing, if there is none.
pub fn after(bytes: &[u8], byte: u8) -> &[u8]
    ensures { length result.now ≤ length bytes.now - 1 }
{
    after_counted(bytes, find(bytes, byte))
}

// The first `count` bytes; all, if there are no more.
pub fn first(bytes: &[u8], count: usize) -> &[u8]
    ensures { result.now ≡ take count bytes.now }
{
    bytes.get(..count).unwrap_or(bytes)
}

// What stands after the first `count` bytes; nothing, if there are no more.
pub fn past(bytes: &[u8], count: usize) -> &[u8]
    ensures { result.now ≡ drop count bytes.now }
{
    bytes.get(count..).unwrap_or(&[])
}

// Whether `count` bytes are there and the byte after them is LF.
pub fn counted(bytes: &[u8], count: usize) -> bool {
    past(bytes, count).starts_with(b"\n")
}

// What stands after `count` bytes and the byte after them, as their LF.
pub fn after_counted(bytes: &[u8], count: usize) -> &[u8]
    ensures value { result.now ≡ drop 1 (drop count bytes.now) }
    ensures shorter { length result.now ≤ length bytes.now - 1 }
{
    past(past(bytes, count), 1)
}

// The place of the first such byte; the end, if there is none.
fn find(bytes: &[u8], byte: u8) -> usize {
    bytes.iter().position(|b| *b == byte).unwrap_or(bytes.len())
}
