// Products and quotients that have more digits than a u64: the leading ones, and one more that says whether anything is left.
ghost use Rattle.std.specs.Prelude.{◌≡◌, ◌+◌, ◌*◌, ◌^◌, ◌≤◌, ◌<◌};
ghost use Rattle.rounding.specs.Leading.{some, sticky, Further};

// 2^32, so that products of what is below it fit. That of crate `words` is no plainer to use: rounding would stand on a crate for one number.
const HALF: u64 = 4294967296;

// 2^26: the digits by which a quotient goes further at once.
const STEP: u64 = 67108864;

// A quotient's whole part so far, and the rest.
#[derive(Clone, Copy)]
pub(crate) struct Part {
    pub(crate) whole: u64,
    pub(crate) rest: u64,
}

// The leading digits of u · v / 2^64, and whether anything is left. By halves, and no u128: `carry_lost` loses the carry between these columns.
pub(crate) fn product(u: u64, v: u64) -> u64
    requires { v < 2 ^ 62 }
    ensures { result ≡ sticky (u * v) (2 ^ 64) }
{
    let u0 = u % HALF;
    let u1 = u / HALF;
    let v0 = v % HALF;
    let v1 = v / HALF;
    let low = u0 * v0;
    let middle = u1 * v0 + low / HALF;
    let next = u0 * v1 + middle % HALF;
    mark(
        u1 * v1 + middle / HALF + next / HALF,
        next % HALF + low % HALF,
    )
}

// The leading digits of w · 2^52 / d, and whether anything is left. By steps, and no u128: `one_digit_too_few` leaves out what a step adds.
pub(crate) fn quotient(w: u64, d: u64) -> u64
    requires { (2 ^ 55 ≤ d) × (d < 2 ^ 56) }
    ensures { result ≡ sticky (w * 2 ^ 52) d }
{
    let first = Part {
        whole: w / d,
        rest: w % d,
    };
    let last = further(further(first, d), d);
    mark(last.whole, last.rest)
}

// 26 digits more. A divisor a little larger, of which only the leading digits are left, gives at most one too few.
fn further(p: Part, d: u64) -> Part
    requires { (p.whole < 2 ^ 36) × (p.rest < d) × (2 ^ 55 ≤ d) × (d < 2 ^ 56) }
    ensures { Further d p result }
{
    let larger = d / STEP + 1;
    let digits = p.rest / larger;
    let rest = p.rest % larger * STEP + digits * (larger * STEP - d);
    let whole = p.whole * STEP + digits;
    if rest < d {
        return Part { whole, rest };
    }
    Part {
        whole: whole + 1,
        rest: rest - d,
    }
}

// One digit more, which says whether anything is left.
fn mark(whole: u64, rest: u64) -> u64
    requires { whole < 2 ^ 63 }
    ensures { result ≡ whole * 2 + some rest }
{
    whole * 2 + u64::from(rest != 0)
}
