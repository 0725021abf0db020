// The nested series of sine and cosine, which closes from its innermost term.
ghost use Rattle.std.specs.Prelude.{◌≡◌, ◌≤◌, length};
ghost use Rattle.plain.specs.Doubles.{one};
ghost use Rattle.angle.specs.Series.{closing, sine_divisors, cosine_divisors, last};

const SINE: [f64; 7] = [210.0, 156.0, 110.0, 72.0, 42.0, 20.0, 6.0];

const COSINE: [f64; 8] = [240.0, 182.0, 132.0, 90.0, 56.0, 30.0, 12.0, 2.0];

// The series of the sine, to be multiplied by t.
pub fn sine(z: f64) -> f64
    ensures { result ≡ closing z one sine_divisors }
{
    close(&SINE, z, 1.0, SINE.len())
}

// The series of the cosine.
pub fn cosine(z: f64) -> f64
    ensures { result ≡ closing z one cosine_divisors }
{
    close(&COSINE, z, 1.0, COSINE.len())
}

// The series from q on, over the divisors that remain. Their number stands for them: a slice of them at each step is slower.
fn close<const N: usize>(divisors: &[f64; N], z: f64, q: f64, remaining: usize) -> f64
    requires { remaining ≤ length divisors.now }
    ensures { result ≡ closing z q (last remaining divisors.now) }
{
    if remaining == 0 {
        return q;
    }
    let p = divisors[N - remaining];
    close(divisors, z, 1.0 - (z / p) * q, remaining - 1)
}
