// The tests at the head of a call that changes the pool: 15 first, and then whether a text is open.
ghost use Rattle.std.specs.Prelude.{◌≡◌};
ghost use Rattle.pool.specs.Ready.{with_none_open, with_one_open};

use layout::check::{is_open, is_sound};
use refusal::Refusal;

// For load, opening, removal and clear: the pool is undamaged, and no text is open.
pub fn test_closed(pool: &[u64]) -> Result<(), Refusal>
    ensures { result ≡ with_none_open pool.now }
{
    if !is_sound(pool) {
        return Err(Refusal::DamagedPool);
    }
    if is_open(pool) {
        return Err(Refusal::TextOpen);
    }
    Ok(())
}

// For feeding, closing and dropping: the pool is undamaged, and a text is open.
pub fn test_open(pool: &[u64]) -> Result<(), Refusal>
    ensures { result ≡ with_one_open pool.now }
{
    if !is_sound(pool) {
        return Err(Refusal::DamagedPool);
    }
    if !is_open(pool) {
        return Err(Refusal::NotHeld);
    }
    Ok(())
}
