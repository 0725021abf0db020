// Orientation and radii, each with its whole contract: a record of what it answers.
ghost use Rattle.globe.specs.Orientation.{Orients};
ghost use Rattle.globe.specs.Radii.{Measures};

use super::source::Source;
use super::{orientation, radii};
use refusal::Refusal;
use rotation::builtin;
use rotation::matrix::Orientation;
use rotation::table::Axes;

// The orientation of a body at an epoch, in TDB seconds past J2000. The pool is looked at only where it is the source.
#[tactic(auto, unfolding(crate::specs::Orientation::orientation_reply))]
pub fn orientation(
    source: Source,
    pool: &[u64],
    code: u32,
    epoch: f64,
) -> Result<Orientation, Refusal>
    ensures { Orients source pool.now code epoch result }
{
    match source {
        Source::Pool => orientation::from_pool(pool, code, epoch),
        Source::Builtin => builtin::orientation(code, epoch),
    }
}

// The radii of a body in km. The pool is looked at only where it is the source.
#[tactic(auto, unfolding(crate::specs::Radii::radii_reply))]
pub fn radii(source: Source, pool: &[u64], code: u32) -> Result<Axes, Refusal>
    ensures { Measures source pool.now code result }
{
    match source {
        Source::Pool => radii::from_pool(pool, code),
        Source::Builtin => builtin::radii(code),
    }
}
