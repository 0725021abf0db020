// A variable of numbers in an undamaged pool.
ghost use Rattle.variables.specs.Found.{Finds};

use crate::gather::gather;
use crate::legal::Legal;
use crate::walk::walk;
use layout::undamaged::Undamaged;

// Why a variable is not fetched: it has no room, is not of the kind that is asked for, or is not there.
#[derive(Clone, Copy)]
pub enum FindError {
    TooMany,
    Mixed,
    Absent,
}

// The variable's values, from the buffer's start on, and how many they are. What is no legal name is in no statement.
pub fn variable(pool: Undamaged, name: &[u8], out: &mut [f64]) -> Result<usize, FindError>
    ensures { Finds name.now pool.entry.words.now out.old result out.new }
{
    let name = Legal::of(name).ok_or(FindError::Absent)?;
    let start = walk(pool, name);
    let count = start.count;
    if count == 0 {
        return Err(FindError::Absent);
    }
    if 0 < start.strings {
        return Err(FindError::Mixed);
    }
    if out.len() < count {
        return Err(FindError::TooMany);
    }
    gather(pool, name, start, out);
    Ok(count)
}
