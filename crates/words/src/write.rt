// Words written over others.
ghost use Rattle.std.specs.Prelude.{◌≡◌, [], ◌∷◌, ◌+◌, ◌≤◌, length};
ghost use Rattle.words.specs.Over.{over, moved};

// One word is written; past the end nothing is.
pub fn store(m: &mut [u64], at: usize, w: u64)
    ensures { m.new ≡ over at (w ∷ []) m.old }
{
    if at < m.len() {
        m[at] = w;
    }
}

// Some elements are written from a place on.
pub fn put<T: Copy>(m: &mut [T], at: usize, ws: &[T])
    requires { at + length ws.now ≤ length m.old }
    ensures { m.new ≡ over at ws.now m.old }
{
    let end = at + ws.len();
    m[at..end].copy_from_slice(ws);
}

// The n words from place `from` on are moved down to place `to`.
pub fn shift(m: &mut [u64], to: usize, from: usize, n: usize)
    requires { (to ≤ from) × (from + n ≤ length m.old) }
    ensures { m.new ≡ moved to from n m.old }
{
    let end = from + n;
    m.copy_within(from..end, to);
}
