// Where a value of a variable stands: found forward from where the variable begins.
ghost use Rattle.std.specs.Prelude.{◌<◌};
ghost use Rattle.variables.specs.Walk.{Begins};
ghost use Rattle.variables.specs.Places.{Stands};

use crate::legal::Legal;
use crate::name::is_named;
use crate::walk::Start;
use layout::head::value_count;
use layout::undamaged::Undamaged;
use names::pack::pack;

// A statement, the place of its first value, and one of its values, counted from 0.
#[derive(Clone, Copy)]
pub struct Spot {
    pub statement: usize,
    pub value: usize,
    pub index: usize,
}

// The value at a place of the variable that begins at `start`, counted from 0.
pub fn locate(pool: Undamaged, name: Legal, start: Start, place: usize) -> Spot
    requires begins { Begins name.bytes.now pool.words.now start.statement start.value start.count start.strings }
    requires place_lt_count { place < start.count }
    ensures { Stands name.entry.bytes.now pool.entry.words.now place result.statement result.value result.index }
{
    let words = pack(name.bytes);
    let heads = pool.heads();
    let names = pool.names();
    let mut value = start.value;
    let mut index = place;
    for s in start.statement..heads.len() {
        let n = value_count(heads[s]);
        if is_named(names, s, &words) {
            if index < n {
                return Spot {
                    statement: s,
                    value,
                    index,
                };
            }
            index -= n;
        }
        value += n;
    }
    unreachable!()
}
