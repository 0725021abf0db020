// The remainder of an angle by a turn, from subtractions that are exact: `%` of doubles is C's fmod, which asks for a newer C library than the rest.
ghost use Rattle.std.specs.Prelude.{◌≡◌, true, false, ◌*◌, ◌^◌, ◌≤◌};
ghost use Rattle.std.specs.Float.{binary64};
ghost use Rattle.std.specs.Float.Ieee.{le, round};
ghost use Rattle.std.specs.Float.Ieee.Positive.{positive};
ghost use Rattle.plain.specs.Doubles.{remainder};
ghost use Rattle.angle.specs.Wrap.{turn};

// The most times that 360 is doubled: twice that is above every double.
const LAST: u64 = 1015;

// x % 360, with the sign of x.
pub(crate) fn remainder_of_turn(x: f64) -> f64
    ensures { result ≡ remainder x turn }
{
    if 360.0 <= x {
        return beyond(x);
    }
    if x <= -360.0 {
        return -beyond(-x);
    }
    x
}

// x % 360, x from 360 on. Of an infinity it is no number.
fn beyond(x: f64) -> f64
    requires { le turn x ≡ true }
    ensures { result ≡ remainder x turn }
{
    if x == f64::INFINITY {
        return f64::NAN;
    }
    halved(x, 360.0, 0)
}

// x % d, d being 360 · 2^k: what is left of x by twice d, and d less where that is not below d.
fn halved(x: f64, d: f64, k: u64) -> f64
    requires { (positive x ≡ true) × (d ≡ round binary64 false (360 * 2 ^ k) 1) × (k ≤ 1015) }
    ensures { result ≡ remainder x d }
{
    if x < d {
        return x;
    }
    if k == LAST {
        return x - d;
    }
    let r = halved(x, d + d, k + 1);
    if r < d {
        return r;
    }
    r - d
}
