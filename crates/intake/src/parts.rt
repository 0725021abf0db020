// Feed a part to the open text, or drop it: 15, 8.
ghost use Rattle.intake.specs.Calls.{Feeds, Drops};

use crate::state::{label_in, open_in, stow};
use layout::limits::OPEN_AT;
use pool::ready::test_open;
use pool::reply::Refused;
use taking::via;
use words::write::store;

// A part more of the open text. Whatever it holds, it is taken: "any fault is told at closing only".
pub fn feed_text(pool: &mut [u64], part: &[u8]) -> Result<(), Refused>
    ensures { Feeds part.now pool.old result pool.new }
{
    test_open(pool)?;
    let label = label_in(pool);
    let before = open_in(pool);
    let after = via(pool, before, part);
    stow(pool, label, after);
    Ok(())
}

// The open text counts as never loaded: one word says that none is open.
pub fn drop_text(pool: &mut [u64]) -> Result<(), Refused>
    ensures { Drops pool.old result pool.new }
{
    test_open(pool)?;
    store(pool, OPEN_AT, 0);
    Ok(())
}
