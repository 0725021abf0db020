// A line for each name that a query about a code may read, those of its orientation first; one line `none` for a code that has none.
// What is no number of 32 bits is passed over.
use reads::{Asked, name_read};
use script::numbers;
use std::io;

// More places than a list has.
const PLACES: usize = 16;

// The answer to one line of the input.
pub fn answer(rt: &impl Print, line: &[u8]) -> io::Result<()> {
    let number = numbers::decimal(line);
    let Some(code) = number.and_then(|n| u32::try_from(n).ok()) else {
        return Ok(());
    };
    if names(rt, Asked::Orientation, code)? == 0 {
        return println!(rt; "{code} none");
    }
    names(rt, Asked::Radii, code)?;
    Ok(())
}

// A line for each name of a list, up to the first place that has none; how many there are.
fn names(rt: &impl Print, asked: Asked, code: u32) -> io::Result<usize> {
    let title = title(asked);
    let mut name = [0; 32];
    for place in 0..PLACES {
        let length = name_read(asked, code, place, &mut name);
        if length == 0 {
            return Ok(place);
        }
        print!(rt; "{code} {title} ")?;
        rt.write_all(script::first(&name, length))?;
        println!(rt; "")?;
    }
    Ok(PLACES)
}

fn title(asked: Asked) -> &'static str {
    match asked {
        Asked::Orientation => "orientation",
        Asked::Radii => "radii",
    }
}
