// The two calls, each with its whole contract. 25 and 26 are asked before the library is.
ghost use Rattle.drive.specs.Calls.{Places, Steps};

use super::answer::Motion;
use super::{ring, way};
use globe::calls::orientation;
use globe::source::Source;
use refusal::Refusal;

// The motor position that a body asks for at an epoch, on a ring of so many positions.
pub fn position(
    source: Source,
    pool: &[u64],
    code: u32,
    epoch: f64,
    ring: u32,
) -> Result<u32, Refusal>
    ensures { Places source pool.now code epoch ring result }
{
    if !ring::is_ring(ring) {
        return Err(Refusal::BadRing);
    }
    let o = orientation(source, pool, code, epoch)?;
    Ok(ring::position_on(ring, o.w))
}

// The position asked for, and the move there from a present position.
pub fn step(
    source: Source,
    pool: &[u64],
    code: u32,
    epoch: f64,
    ring: u32,
    present: u32,
) -> Result<Motion, Refusal>
    ensures { Steps source pool.now code epoch ring present result }
{
    if !ring::is_ring(ring) {
        return Err(Refusal::BadRing);
    }
    if ring <= present {
        return Err(Refusal::BadPosition);
    }
    let target = position(source, pool, code, epoch, ring)?;
    let way = way::move_between(ring, present, target);
    Ok(Motion { target, way })
}
