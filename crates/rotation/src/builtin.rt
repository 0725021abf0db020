// The built-in source: orientation and radii of the Sun and the planets.
ghost use Rattle.std.specs.Prelude.{◌≡◌};
ghost use Rattle.rotation.specs.Builtin.{row_evaluated, builtin_orientation, builtin_radii};

use super::elements::Elements;
use super::matrix::Orientation;
use super::nutation::{LINEAR, Nutation};
use super::table::Axes;
use super::{code, epoch, evaluation, table};
use refusal::Refusal;

// The orientation of a body at an epoch, in TDB seconds past J2000, by the built-in table.
#[tactic(auto, unfolding(crate::specs::Builtin::builtin_orientation))]
pub fn orientation(code: u32, epoch: f64) -> Result<Orientation, Refusal>
    ensures { result ≡ builtin_orientation code epoch }
{
    if !epoch::in_reach(epoch) {
        return Err(Refusal::Epoch);
    }
    let _system = code::system_of(code).ok_or(Refusal::UnknownBody)?;
    let e = table::row_of(code).ok_or(Refusal::UnknownBody)?;
    Ok(evaluate_row(code, e, epoch))
}

// The radii of a body by the built-in table.
#[tactic(auto, unfolding(crate::specs::Builtin::builtin_radii))]
pub fn radii(code: u32) -> Result<Axes, Refusal>
    ensures { result ≡ builtin_radii code }
{
    table::size_of(code).ok_or(Refusal::UnknownBody)
}

// A row at an epoch. Neptune alone has an angle, which goes the way of every system's angles.
fn evaluate_row(code: u32, e: Elements, epoch: f64) -> Orientation
    ensures { result ≡ row_evaluated code e epoch }
{
    if code == 899 {
        let neptune = Nutation {
            degree: LINEAR,
            angles: &[357.85, 52.316],
            ra: &[0.70],
            dec: &[-0.51],
            pm: &[-0.48],
        };
        return evaluation::evaluate(e, epoch, neptune);
    }
    let none = Nutation {
        degree: LINEAR,
        angles: &[],
        ra: &[],
        dec: &[],
        pm: &[],
    };
    evaluation::evaluate(e, epoch, none)
}
