// "Evaluation", in its order: days and centuries, polynomials, nutation, wrap and matrix.
ghost use Rattle.std.specs.Prelude.{◌≡◌};
ghost use Rattle.rotation.specs.Evaluation.{evaluated};

use super::elements::Elements;
use super::matrix::Orientation;
use super::nutation::{Nutation, Sums};
use super::{epoch, matrix};

// The orientation by elements and nutation.
#[tactic(auto, unfolding(crate::specs::Evaluation::evaluated))]
pub fn evaluate(e: Elements, epoch: f64, nutation: Nutation) -> Orientation
    ensures { result ≡ evaluated e epoch nutation.entry.degree nutation.entry.angles.now
        nutation.entry.ra.now nutation.entry.dec.now nutation.entry.pm.now }
{
    let d = epoch::in_days(epoch);
    let t = epoch::in_centuries(d);
    let start = Sums {
        ra: e.ra.at(t),
        dec: e.dec.at(t),
        w: e.pm.at(d),
    };
    let sums = nutation.nutate(t, start);
    matrix::orient(sums.ra, sums.dec, sums.w)
}
