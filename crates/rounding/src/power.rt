// The powers of ten that are doubles, and those of five, worked out when they are needed.
ghost use Rattle.std.specs.Prelude.{◌≡◌, ◌*◌, ◌%◌, ◌^◌, ◌<◌};
ghost use Rattle.rounding.specs.Exact.{double};

use super::Tens;

impl Tens {
    // 10^k: 5^k times 2^k, which are doubles, and so is their product.
    pub(crate) fn power(self) -> f64
        ensures { result ≡ double (10 ^ self.k) }
    {
        (self.five() as f64) * ((1u64 << self.k) as f64)
    }

    // 5^k: the squares of five for the binary digits of k. There are five, and a line each is plainer than a loop over a table of them.
    pub(crate) fn five(self) -> u64
        ensures { result ≡ 5 ^ self.k }
    {
        let k = self.k;
        let n = square(1, k, 5);
        let n = square(n, k / 2, 25);
        let n = square(n, k / 4, 625);
        let n = square(n, k / 8, 390625);
        square(n, k / 16, 152587890625)
    }
}

// One square more, where the last binary digit of k asks for it.
fn square(n: u64, k: u64, five: u64) -> u64
    requires { n * five ^ (k % 2) < 2 ^ 64 }
    ensures { result ≡ n * five ^ (k % 2) }
{
    if k % 2 == 0 { n } else { n * five }
}
