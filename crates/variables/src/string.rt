// A string of an undamaged pool, by its place in a variable.
ghost use Rattle.std.specs.Prelude.{◌≡◌};
ghost use Rattle.variables.specs.Spelled.{Spells};
ghost use Rattle.variables.specs.Places.{Spelt, byte_before, Placed, Copies};

use crate::legal::Legal;
use crate::spot::{Spot, locate};
use crate::variable::FindError;
use crate::walk::walk;
use layout::taken::sum_bytes;
use layout::undamaged::Undamaged;
use octets::read::copy_bytes;
use words::read::part_of;
use words::scan::sum_lower;

// The string at a place, counted from 1, is written from the buffer's start on, and its length told. What is no legal name is in no statement.
pub fn string(
    pool: Undamaged,
    name: &[u8],
    place: usize,
    out: &mut [u8],
) -> Result<usize, FindError>
    ensures { Spells name.now place pool.entry.words.now out.old result out.new }
{
    let name = Legal::of(name).ok_or(FindError::Absent)?;
    let start = walk(pool, name);
    if place == 0 || start.count < place {
        return Err(FindError::Absent);
    }
    if start.strings < start.count {
        return Err(FindError::Mixed);
    }
    let spot = locate(pool, name, start, place - 1);
    let byte = first_byte(pool, spot);
    let value = spot.value + spot.index;
    copy(pool, value, byte, out)
}

// The place of a string's first byte: after the bytes of all statements before its own, and of its statement's strings before it.
fn first_byte(pool: Undamaged, spot: Spot) -> usize
    requires { Spelt pool.words.now spot.statement spot.value spot.index }
    ensures { result ≡ byte_before pool.entry.words.now spot.statement spot.value spot.index }
{
    let s = spot.statement;
    let values = pool.values();
    let before = sum_bytes(&pool.heads()[..s], values);
    let inside = sum_lower(part_of(values, spot.value, spot.index));
    (before + inside) as usize
}

// The string of this value, whose bytes begin there, is written if it has room.
fn copy(pool: Undamaged, value: usize, byte: usize, out: &mut [u8]) -> Result<usize, FindError>
    requires { Placed pool.words.now value byte }
    ensures { Copies pool.entry.words.now value byte out.old result out.new }
{
    let long = pool.values()[value] as usize;
    if out.len() < long {
        return Err(FindError::TooMany);
    }
    copy_bytes(pool.bytes(), byte, long, out);
    Ok(long)
}
