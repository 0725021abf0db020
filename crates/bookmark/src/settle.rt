// A reader read from memory, believed as far as the statement stored last bears it out.
ghost use Rattle.std.specs.Prelude.{◌≡◌};
ghost use Rattle.bookmark.specs.Borne.{list_of, settled_reader};

use statement::values::{Kind, Reader};

// The reader, given whether a statement is stored, whether the last one has strings, and whether it holds one number, which is +0.
pub fn settle_reader(stored: bool, strings: bool, placeholder: bool, reader: Reader) -> Reader
    ensures { result ≡ settled_reader stored strings placeholder reader }
{
    match reader {
        Reader::Text => Reader::Text,
        Reader::Data => Reader::Data,
        Reader::List(kind) => {
            if stored {
                Reader::List(list_of(strings, placeholder, kind))
            } else {
                Reader::Data
            }
        }
    }
}

// What the list has so far.
fn list_of(strings: bool, placeholder: bool, kind: Kind) -> Kind
    ensures { result ≡ list_of strings placeholder kind }
{
    if strings {
        return Kind::Strings;
    }
    if !placeholder {
        return Kind::Numbers;
    }
    match kind {
        Kind::Empty => Kind::Empty,
        Kind::Numbers => Kind::Numbers,
        Kind::Strings => Kind::Numbers,
    }
}
