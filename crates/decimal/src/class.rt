// The class and the double of a number in it: document 01, "either a number in the class or a refusal".
ghost use Rattle.std.specs.Prelude.{◌≡◌, pos, ◌-ℤ◌};
ghost use Rattle.decimal.specs.Form.{number};
ghost use Rattle.decimal.specs.Class.{signed, valued};

use super::Reading;
use super::digits::FAR;
use refusal::Refusal;
use rounding::Tens;

// The double nearest to w · 10^k, then negated for a minus. k is `up` less `down`.
pub(crate) fn scale(minus: bool, w: u64, up: u64, down: u64) -> Reading
    ensures { result ≡ valued (number minus w (pos up -ℤ pos down)) }
{
    if w >= FAR {
        return Reading::OutsideClass(Refusal::Number);
    }
    let k = up.abs_diff(down);
    let Some(tens) = Tens::of(k) else {
        return Reading::OutsideClass(Refusal::Number);
    };
    if up < down {
        return Reading::Number(negate_for(minus, tens.over(w)));
    }
    Reading::Number(negate_for(minus, tens.times(w)))
}

// Negated for a minus. The sign is flipped, so that a zero with a minus is −0.
fn negate_for(minus: bool, x: f64) -> f64
    ensures { result ≡ signed minus x }
{
    if minus { -x } else { x }
}
