// Remove: the text under a label goes, and what stands after it in every area moves down.
ghost use Rattle.pool.specs.Remove.{Removes};

use crate::ready::test_closed;
use crate::reply::Refused;
use layout::area::texts_of;
use refusal::Refusal;
use removing::gap::take_out;
use words::scan::place_of;

pub fn remove(pool: &mut [u64], label: u32) -> Result<(), Refused>
    ensures { Removes label pool.old result pool.new }
{
    test_closed(pool)?;
    let Some(place) = place_of(texts_of(pool), label as u64) else {
        return Err(Refusal::NotHeld.into());
    };
    take_out(pool, place);
    Ok(())
}
