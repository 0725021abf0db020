// A part of a list of words, lent.
ghost use Rattle.std.specs.Prelude.{◌≡◌, ◌+◌, ◌≤◌, length};
ghost use Rattle.words.specs.Over.{part};

// The n words from place `at` on.
pub fn part_of(m: &[u64], at: usize, n: usize) -> &[u64]
    requires { at + n ≤ length m.now }
    ensures { result.now ≡ part at n m.now }
{
    let end = at + n;
    &m[at..end]
}
