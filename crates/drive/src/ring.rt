// "The largest whole n below N with n as a double times (360 / N as doubles) not above the meridian angle."
ghost use Rattle.std.specs.Prelude.{◌≡◌, true};
ghost use Rattle.angle.specs.Range.{InTurn};
ghost use Rattle.drive.specs.Ring.{ringed, Position};

const FEWEST: u32 = 2;

const MOST: u32 = 4096;

// There is a ring of so many positions.
pub(crate) fn is_ring(ring: u32) -> bool
    ensures { result ≡ ringed ring }
{
    (FEWEST..=MOST).contains(&ring)
}

// The position of an angle of the turn. The product rises with n, so at most 12 of them are tried: a `while` that halves what is left.
pub(crate) fn position_on(ring: u32, w: f64) -> u32
    requires { (ringed ring ≡ true) × InTurn w }
    ensures { Position ring w result }
{
    let spacing = 360.0 / (ring as f64);
    let mut low: u32 = 0;
    let mut high: u32 = ring;
    while low + 1 < high {
        let middle = (low + high) / 2;
        if (middle as f64) * spacing <= w {
            low = middle;
        } else {
            high = middle;
        }
    }
    low
}
