// "followed by all later appendings": a variable's values, gathered forward from where it begins.
ghost use Rattle.std.specs.Prelude.{◌≡◌, true, map, ◌+◌, ◌≤◌, length};
ghost use Rattle.std.specs.Float.{binary64};
ghost use Rattle.std.specs.Float.Ieee.{of_bits};
ghost use Rattle.words.specs.Over.{over};
ghost use Rattle.words.specs.Halves.{all};
ghost use Rattle.layout.specs.Memory.{decode};
ghost use Rattle.layout.specs.Damage.{small};
ghost use Rattle.variables.specs.Walk.{Begins};
ghost use Rattle.variables.specs.Found.{doubles};

use crate::legal::Legal;
use crate::name::is_named;
use crate::walk::Start;
use layout::head::value_count;
use layout::undamaged::Undamaged;
use names::pack::pack;
use words::read::part_of;

// The numbers of the variable that begins at `start`, none of its values being a string, are written from the buffer's start on.
pub fn gather(pool: Undamaged, name: Legal, start: Start, out: &mut [f64])
    requires begins { Begins name.bytes.now pool.words.now start.statement start.value start.count start.strings }
    requires numbers_with_room { (start.strings ≡ 0) × (start.count ≤ length out.old) }
    ensures { out.new ≡ over 0 (doubles name.entry.bytes.now (decode pool.entry.words.now)) out.old }
{
    let words = pack(name.bytes);
    let heads = pool.heads();
    let names = pool.names();
    let values = pool.values();
    let mut value = start.value;
    let mut at = 0;
    for s in start.statement..heads.len() {
        let n = value_count(heads[s]);
        if is_named(names, s, &words) {
            copy_doubles(part_of(values, value, n), at, out);
            at += n;
        }
        value += n;
    }
}

// The doubles of these bits are written from place `at` on. No twin of `words::write::put`: each word becomes a double, which no copy does.
fn copy_doubles(bits: &[u64], at: usize, out: &mut [f64])
    requires bits_in_bounds { at + length bits.now ≤ length out.old }
    requires all_small { all small bits.now ≡ true }
    ensures { out.new ≡ over at (map (of_bits binary64) bits.now) out.old }
{
    for (j, word) in bits.iter().enumerate() {
        out[at + j] = f64::from_bits(*word);
    }
}
