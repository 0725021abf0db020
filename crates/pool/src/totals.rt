// The totals held: texts, statements, values.
ghost use Rattle.pool.specs.Totals.{Totals};

use crate::reply::Counts;
use layout::undamaged::Undamaged;
use refusal::Refusal;

pub fn totals(pool: &[u64]) -> Result<Counts, Refusal>
    ensures { Totals pool.now result }
{
    let pool = Undamaged::of(pool).ok_or(Refusal::DamagedPool)?;
    let held = pool.totals();
    Ok(Counts {
        texts: held.texts as usize,
        statements: held.statements as usize,
        values: held.values as usize,
    })
}
