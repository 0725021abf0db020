// The thirty words that keep where an open text stands, written.
ghost use Rattle.std.specs.Prelude.{◌≡◌, ◌+◌, ◌≤◌, length};
ghost use Rattle.words.specs.Over.{over};
ghost use Rattle.octets.specs.Octets.{packed};
ghost use Rattle.feeding.specs.Kept.{ROOM};
ghost use Rattle.bookmark.specs.Limits.{MARKWORDS, LINEWORDS};
ghost use Rattle.bookmark.specs.Words.{number_words, open_words};
ghost use Rattle.bookmark.specs.Marked.{open_of};

use crate::limits::NUMBERWORDS;
use crate::mark::Bookmark;
use crate::number::standing_words;
use octets::write::set_byte;
use words::write::put;

// A text is open.
const OPEN: u64 = 1;

// The words are written from a place on.
pub fn write(m: &mut [u64], at: usize, b: Bookmark)
    requires { at + MARKWORDS ≤ length m.old }
    ensures { m.new ≡ over at (open_words (open_of b)) m.old }
{
    let numbers = number_words(b);
    let line = line_words(b.kept.line());
    put(m, at, &numbers);
    put(m, at + NUMBERWORDS, &line);
}

// The words of numbers; how many statements there are stands elsewhere.
fn number_words(b: Bookmark) -> [u64; 13]
    ensures { result ≡ number_words (open_of b) }
{
    let [way, reader, fault, line, place] = standing_words(b.entered.standing);
    [
        OPEN,
        b.entered.values as u64,
        b.entered.bytes as u64,
        way,
        reader,
        fault,
        line,
        place,
        b.number as u64,
        b.long as u64,
        b.kept.used as u64,
        u64::from(b.pending),
        b.total as u64,
    ]
}

// The line that goes on, its bytes one after the other over zeros.
fn line_words(line: &[u8]) -> [u64; 17]
    requires { length line.now ≤ ROOM }
    ensures { result ≡ packed LINEWORDS line.now }
{
    let mut ws = [0u64; 17];
    for (i, b) in line.iter().enumerate() {
        set_byte(&mut ws, i, *b);
    }
    ws
}
