// Whether a text is held under a label.
ghost use Rattle.std.specs.Prelude.{◌≡◌};
ghost use Rattle.layout.specs.Memory.{decode};
ghost use Rattle.layout.specs.Damage.{Framed};
ghost use Rattle.pool.specs.Held.{held};

use layout::area::texts_of;
use words::scan::place_of;

// A text is held under the label.
pub fn is_held(pool: &[u64], label: u32) -> bool
    requires { Framed pool.now }
    ensures { result ≡ held label (decode pool.now) }
{
    place_of(texts_of(pool), label as u64).is_some()
}
