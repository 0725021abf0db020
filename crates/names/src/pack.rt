// A name packed into words.
ghost use Rattle.std.specs.Prelude.{◌≡◌, ◌≤◌, get_or};
ghost use Rattle.names.specs.Names.{word_at, packed};

// The words of a name.
pub const NAMEWORDS: usize = 4;

// A name's four words.
pub fn pack(name: &[u8]) -> [u64; 4]
    ensures { result ≡ packed name.now }
{
    [
        word_at(name, 0),
        word_at(name, 8),
        word_at(name, 16),
        word_at(name, 24),
    ]
}

// The word of eight bytes from place k on, the first one highest.
fn word_at(name: &[u8], k: usize) -> u64
    requires { k ≤ 24 }
    ensures { result ≡ word_at name.now k }
{
    u64::from_be_bytes([
        byte_at(name, k),
        byte_at(name, k + 1),
        byte_at(name, k + 2),
        byte_at(name, k + 3),
        byte_at(name, k + 4),
        byte_at(name, k + 5),
        byte_at(name, k + 6),
        byte_at(name, k + 7),
    ])
}

// The byte at place k, 0 past the end.
fn byte_at(name: &[u8], k: usize) -> u8
    ensures { result ≡ get_or name.now k 0 }
{
    name.get(k).copied().unwrap_or(0)
}
