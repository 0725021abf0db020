// The thirty words that keep where an open text stands, read.
ghost use Rattle.bookmark.specs.Marked.{Readable, Reads, LineReadable, ReadsLine};

use crate::limits::{COUNTS, LENGTHS, NUMBERWORDS};
use crate::mark::{Bookmark, Entered};
use crate::number::standing_of;
use feeding::kept::Kept;
use octets::read::copy_bytes;

// What the words say, the number of statements given.
pub fn read(ws: &[u64], statements: usize) -> Bookmark
    requires { Readable ws.now }
    ensures { Reads ws.now statements result }
{
    let standing = standing_of(ws[3], ws[4], ws[5], ws[6], ws[7]);
    let entered = Entered {
        standing,
        statements,
        values: ws[1] as usize,
        bytes: ws[2] as usize,
    };
    let kept = read_line(&ws[NUMBERWORDS..], ws[10] as usize);
    Bookmark {
        entered,
        number: (ws[8] % COUNTS) as usize,
        long: (ws[9] % LENGTHS) as usize,
        kept,
        pending: ws[11] % 2 == 1,
        total: ws[12] as usize,
    }
}

// The first bytes of the words, as the line that goes on.
fn read_line(ws: &[u64], used: usize) -> Kept
    requires { LineReadable ws.now used }
    ensures { ReadsLine ws.now used result }
{
    let mut bytes = [0u8; 133];
    copy_bytes(ws, 0, used, &mut bytes);
    Kept { bytes, used }
}
