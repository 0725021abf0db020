// Names in words: their bytes from the most significant down, zeros after them, so that words compare as names do.
ghost use Rattle.std.specs.Prelude.{◌≡◌, ◌*◌, ◌≤◌, ◌<◌, length};
ghost use Rattle.words.specs.Over.{over};
ghost use Rattle.octets.specs.Octets.{octets};
ghost use Rattle.order.specs.Places.{name_count, words_at};

use names::pack::NAMEWORDS;
use words::read::part_of;
use words::write::put;

// The bytes of a word.
const WORDBYTES: usize = 8;

// The words of the name at a place.
pub fn name_at(names: &[u64], place: usize) -> &[u64]
    requires { place < name_count names.now }
    ensures { result.now ≡ words_at names.now place }
{
    part_of(names, NAMEWORDS * place, NAMEWORDS)
}

// The bytes of some words, one after the other.
pub fn spread(words: &[u64], room: &mut [u8])
    requires { 8 * length words.now ≤ length room.old }
    ensures { room.new ≡ over 0 (octets words.now) room.old }
{
    for (i, w) in words.iter().enumerate() {
        put(room, WORDBYTES * i, &w.to_be_bytes());
    }
}
