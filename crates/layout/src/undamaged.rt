// The words of an undamaged pool, lent, and their areas.
ghost use Rattle.std.specs.Prelude.{◌≡◌, true, false, MatchOption};
ghost use Rattle.words.specs.Over.{part};
ghost use Rattle.layout.specs.Limits.{BYTES_AT, BYTEWORDS};
ghost use Rattle.layout.specs.Memory.{text_words, head_words, name_words, value_words};
ghost use Rattle.layout.specs.Damage.{sound};
ghost use Rattle.layout.specs.Totals.{own_totals};

use crate::area::{bytes_of, heads_of, names_of, texts_of, values_of};
use crate::check::is_sound;
use crate::front::{Totals, totals_of};

// Whoever holds one has words that passed the test for damage.
#[derive(Clone, Copy)]
pub struct Undamaged<'a> {
    pub words: &'a [u64],
    pub ghost tested: { sound words.now ≡ true },
}

impl<'a> Undamaged<'a> {
    // The words, if they are not damaged.
    pub fn of(words: &'a [u64]) -> Option<Undamaged<'a>>
        ensures { MatchOption result (sound words.now ≡ false) (λ pool. pool.words.now ≡ words.now) }
    {
        if is_sound(words) {
            Some(Undamaged { words })
        } else {
            None
        }
    }

    // The words in use of each area.
    #[tactic(auto, using(crate::proofs::Sound::framed))]
    pub fn texts(self) -> &'a [u64]
        ensures { result.now ≡ text_words self.entry.words.now }
    {
        texts_of(self.words)
    }

    #[tactic(auto, using(crate::proofs::Sound::framed))]
    pub fn heads(self) -> &'a [u64]
        ensures { result.now ≡ head_words self.entry.words.now }
    {
        heads_of(self.words)
    }

    #[tactic(auto, using(crate::proofs::Sound::framed))]
    pub fn names(self) -> &'a [u64]
        ensures { result.now ≡ name_words self.entry.words.now }
    {
        names_of(self.words)
    }

    #[tactic(auto, using(crate::proofs::Sound::framed))]
    pub fn values(self) -> &'a [u64]
        ensures { result.now ≡ value_words self.entry.words.now }
    {
        values_of(self.words)
    }

    // All words of the strings' bytes.
    #[tactic(auto, using(crate::proofs::Sound::framed))]
    pub fn bytes(self) -> &'a [u64]
        ensures { result.now ≡ part BYTES_AT BYTEWORDS self.entry.words.now }
    {
        bytes_of(self.words)
    }

    pub fn totals(self) -> Totals
        ensures { result ≡ own_totals self.entry.words.now }
    {
        totals_of(self.words)
    }
}
