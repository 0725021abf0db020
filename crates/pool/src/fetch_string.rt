// Fetch a string by its place in a variable: 15, then 13, 16, 14.
ghost use Rattle.pool.specs.FetchString.{FetchesString};

use crate::fetch::answer;
use layout::undamaged::Undamaged;
use refusal::Refusal;
use variables::string::string;

// The string's bytes, from the buffer's start on; refused, the buffer stays as it was.
pub fn fetch_string(
    pool: &[u64],
    name: &[u8],
    place: usize,
    buffer: &mut [u8],
) -> Result<usize, Refusal>
    ensures { FetchesString name.now place pool.now buffer.old result buffer.new }
{
    let pool = Undamaged::of(pool).ok_or(Refusal::DamagedPool)?;
    answer(string(pool, name, place, buffer))
}
