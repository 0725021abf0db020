// Fetch a variable of numbers: 15, then 13, 16, 14.
ghost use Rattle.std.specs.Prelude.{◌≡◌};
ghost use Rattle.pool.specs.Fetch.{fetched, Fetches};

use layout::undamaged::Undamaged;
use refusal::Refusal;
use variables::variable::{FindError, variable};

// The variable's values, from the buffer's start on; refused, the buffer stays as it was.
pub fn fetch(pool: &[u64], name: &[u8], buffer: &mut [f64]) -> Result<usize, Refusal>
    ensures { Fetches name.now pool.now buffer.old result buffer.new }
{
    let pool = Undamaged::of(pool).ok_or(Refusal::DamagedPool)?;
    answer(variable(pool, name, buffer))
}

// 13 where "no held statement has that name", 16 where the kind is another, 14 where "buffer shorter than the variable".
pub fn answer(found: Result<usize, FindError>) -> Result<usize, Refusal>
    ensures { result ≡ fetched found }
{
    found.map_err(|error| match error {
        FindError::TooMany => Refusal::ShortBuffer,
        FindError::Mixed => Refusal::MixedKind,
        FindError::Absent => Refusal::NoVariable,
    })
}
