// "Wrap": an angle brought into 0 up to 360.
ghost use Rattle.std.specs.Prelude.{◌≡◌};
ghost use Rattle.angle.specs.Wrap.{wrapped, kept};

use super::remainder::remainder_of_turn;

// x brought into 0 up to 360.
pub fn wrap(x: f64) -> f64
    ensures { result ≡ wrapped x }
{
    let r = remainder_of_turn(x);
    if r < 0.0 {
        return keep(r + 360.0);
    }
    keep(r)
}

// r where it is at least 0 and below 360, and 0 otherwise; a zero is +0.
// The last clause is for r + 360, which rounds to 360 for a tiny negative r, and for a NaN.
fn keep(r: f64) -> f64
    ensures { result ≡ kept r }
{
    if 0.0 < r && r < 360.0 {
        return r;
    }
    0.0
}
