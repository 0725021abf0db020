// A line for each text.
use refusal::Refusal;
use std::io;

// A fault's place in its line is counted from 0 and is at most 132, the column from 1.
pub fn text(rt: &impl Print, place: u64, text: &[u8]) -> io::Result<()> {
    match text::check(text) {
        Ok(counts) => println!(rt; "{place} 0 0 0 {} {}", counts.statements, counts.values),
        Err(found) => {
            let number = refusal::number(Refusal::from(found.fault));
            let column = found.place.wrapping_add(1);
            println!(rt; "{place} {number} {} {column} 0 0", found.line)
        }
    }
}
