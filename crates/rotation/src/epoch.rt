// An epoch in seconds, and the days and the Julian centuries that it counts.
ghost use Rattle.std.specs.Prelude.{◌≡◌, Float};
ghost use Rattle.rotation.specs.Epochs.{days, centuries, in_reach};

// A span of time, counted in a unit of its own.
pub trait Elapsed {
    ghost amount: { Self → Float };

    // The number of units.
    fn amount(self) -> f64
        ensures { result ≡ amount self };
}

// A rate per day meets Days, and a rate per century Centuries: neither can take the other.
#[derive(Clone, Copy)]
pub struct Days(pub f64);

#[derive(Clone, Copy)]
pub struct Centuries(pub f64);

impl Elapsed for Days {
    ghost amount = { λ d. d.0 };

    fn amount(self) -> f64 {
        self.0
    }
}

impl Elapsed for Centuries {
    ghost amount = { λ t. t.0 };

    fn amount(self) -> f64 {
        self.0
    }
}

const FARTHEST: f64 = 157788000000.0;

// The epoch is finite, and not beyond the farthest one.
pub fn in_reach(epoch: f64) -> bool
    ensures { result ≡ in_reach epoch }
{
    (-FARTHEST..=FARTHEST).contains(&epoch)
}

pub fn in_days(epoch: f64) -> Days
    ensures { result ≡ days epoch }
{
    Days(epoch / 86400.0)
}

pub fn in_centuries(d: Days) -> Centuries
    ensures { result ≡ centuries d }
{
    Centuries(d.0 / 36525.0)
}
