// The line that goes on: document 01, "Lines end at LF; one CR just before it is dropped".
ghost use Rattle.std.specs.Prelude.{◌≡◌, ◌+◌, ◌≤◌, ◌<◌, length};
ghost use Rattle.text.specs.Lines.{without_cr};
ghost use Rattle.feeding.specs.Parts.{MOST};
ghost use Rattle.entering.specs.Lines.{Ready};
ghost use Rattle.taking.specs.Taking.{Unbroken, Holds, Ends};

use crate::counts::more;
use bookmark::mark::Bookmark;
use entering::line::complete_line;
use feeding::kept::Kept;

// Bytes of the line that goes on. A CR at their end waits: the byte after it tells whether it is the line's.
pub fn hold(b: Bookmark, bytes: &[u8]) -> Bookmark
    requires { (b.total + length bytes.now ≤ MOST) × (Unbroken bytes.now) }
    ensures { Holds b bytes.now result }
{
    if bytes.is_empty() {
        return b;
    }
    let line = without_cr(bytes);
    Bookmark {
        kept: b.kept.settle(b.pending).keep_run(line),
        pending: line.len() < bytes.len(),
        total: b.total + bytes.len(),
        ..b
    }
}

// An LF: what is kept is a complete line.
pub fn end_line(pool: &mut [u64], b: Bookmark) -> Bookmark
    requires { (Ready pool.old b.entered) × (b.total < MOST) }
    ensures { Ends pool.old b pool.new result }
{
    let number = more(b.number);
    Bookmark {
        entered: complete_line(pool, b.entered, number, b.kept.line()),
        number,
        long: b.kept.used,
        kept: Kept {
            bytes: b.kept.bytes,
            used: 0,
        },
        pending: false,
        total: b.total + 1,
    }
}

// The bytes before an LF, without a CR at their end.
pub fn without_cr(bytes: &[u8]) -> &[u8]
    ensures { result.now ≡ without_cr bytes.now }
{
    bytes.strip_suffix(b"\r").unwrap_or(bytes)
}
