// Make empty and clear: both write the totals, and that no text is open, and leave every other word.
ghost use Rattle.std.specs.Prelude.{◌≡◌, []};
ghost use Rattle.layout.specs.Memory.{put};
ghost use Rattle.pool.specs.Empty.{Empties, Clears};

use crate::ready::test_closed;
use crate::reply::Refused;
use layout::front::write_front;
use layout::limits::WORDS;
use refusal::Refusal;

// The pool holds nothing, whatever it held; an open text is dropped.
pub fn make_empty(pool: &mut [u64]) -> Result<(), Refused>
    ensures { Empties pool.old result pool.new }
{
    if pool.len() != WORDS {
        return Err(Refusal::DamagedPool.into());
    }
    hold_nothing(pool);
    Ok(())
}

// An undamaged pool with no text open holds nothing.
pub fn clear(pool: &mut [u64]) -> Result<(), Refused>
    ensures { Clears pool.old result pool.new }
{
    test_closed(pool)?;
    hold_nothing(pool);
    Ok(())
}

fn hold_nothing(pool: &mut [u64])
    ensures { pool.new ≡ put [] pool.old }
{
    write_front(pool, 0, 0, 0, 0);
}
