// "Sine and cosine of x degrees".
ghost use Rattle.std.specs.Prelude.{◌≡◌};
ghost use Rattle.angle.specs.Sine.{core, sine_cosine};

use super::{series, wrap};

// A sine and a cosine.
#[derive(Clone, Copy)]
pub struct SineCosine(pub f64, pub f64);

// The sine and the cosine of x degrees.
pub fn sine_cosine(x: f64) -> SineCosine
    ensures { result ≡ sine_cosine x }
{
    let a = wrap::wrap(x);
    if a < 45.0 {
        return core(a);
    }
    if a < 135.0 {
        let p = core(a - 90.0);
        return SineCosine(p.1, -p.0);
    }
    if a < 225.0 {
        let p = core(a - 180.0);
        return SineCosine(-p.0, -p.1);
    }
    if a < 315.0 {
        let p = core(a - 270.0);
        return SineCosine(-p.1, p.0);
    }
    core(a - 360.0)
}

// The sine and the cosine of y degrees, y from -45 to 45.
fn core(y: f64) -> SineCosine
    ensures { result ≡ core y }
{
    let t = y * 0.017453292519943295;
    let z = t * t;
    SineCosine(t * series::sine(z), series::cosine(z))
}
