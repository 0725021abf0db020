// Open a text under a label: 15, 22, 1.
ghost use Rattle.intake.specs.Calls.{Opens};
ghost use Rattle.intake.specs.State.{Begins};

use crate::state::stow;
use bookmark::mark::{Bookmark, Entered, Standing};
use feeding::kept::Kept;
use pool::held::is_held;
use pool::ready::test_closed;
use pool::reply::Refused;
use refusal::Refusal;
use statement::values::Reader;

// Nothing of the text came yet; what is held stays as it was.
pub fn open_text(pool: &mut [u64], label: u32) -> Result<(), Refused>
    ensures { Opens label pool.old result pool.new }
{
    test_closed(pool)?;
    if is_held(pool, label) {
        return Err(Refusal::LabelHeld.into());
    }
    stow(pool, label as u64, beginning());
    Ok(())
}

// "A text opens in a text section."
fn beginning() -> Bookmark
    ensures { Begins result }
{
    Bookmark {
        entered: Entered {
            standing: Standing::Storing(Reader::Text),
            statements: 0,
            values: 0,
            bytes: 0,
        },
        number: 0,
        long: 0,
        kept: Kept {
            bytes: [0; 133],
            used: 0,
        },
        pending: false,
        total: 0,
    }
}
