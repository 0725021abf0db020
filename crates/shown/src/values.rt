// "The listing shows a string quoted, as written, in place of bits": the values of variables, in order.
ghost use Rattle.std.specs.Prelude.{length, map};
ghost use Rattle.words.specs.Placed.{Room, Writes};
ghost use Rattle.names.specs.Names.{unpacked};
ghost use Rattle.variables.specs.Variables.{number, each};
ghost use Rattle.shown.specs.Shown.{value_lines};
ghost use Rattle.shown.specs.Shows.{listed, lines_of, Valuing, lines, Telling, Passing, stated, Stating, spelt, Spelling};

use layout::head::{holds_numbers, value_count};
use layout::taken::sum_bytes;
use layout::undamaged::Undamaged;
use names::pack::pack;
use order::in_words::{name_at, spread};
use pen::quoted::write_quoted;
use pen::write_line;
use value::classes::{Class, run};
use variables::legal::Legal;
use variables::name::is_named;
use variables::walk::{Start, walk};
use words::read::part_of;

// The values of the variables at these places.
pub fn show_values(pool: Undamaged, places: &[usize], out: &mut [u8], at: usize) -> usize
    requires { Valuing pool.words.now (length places.now) places.now at out.old }
    ensures { Writes at (lines_of pool.entry.words.now (listed pool.entry.words.now (length places.now) places.now)) out.old result out.new }
{
    let names = pool.names();
    let mut end = at;
    for place in places {
        let words = name_at(names, *place);
        end = show_variable(pool, words, out, end);
    }
    end
}

// The values of one variable.
fn show_variable(pool: Undamaged, words: &[u64], out: &mut [u8], at: usize) -> usize
    requires { Telling pool.words.now words.now at out.old }
    ensures { Writes at (lines pool.entry.words.now (unpacked words.now)) out.old result out.new }
{
    let mut room = [0u8; 32];
    spread(words, &mut room);
    let name = Legal {
        bytes: run(Class::Name, &room, 0),
    };
    let start = walk(pool, name);
    show_statements(pool, name, start, out, at)
}

// The values of the statements that have the name, from where the variable begins on.
fn show_statements(pool: Undamaged, name: Legal, start: Start, out: &mut [u8], at: usize) -> usize
    requires { Passing pool.words.now name.bytes.now start at out.old }
    ensures { Writes at (lines pool.entry.words.now name.entry.bytes.now) out.old result out.new }
{
    let words = pack(name.bytes);
    let heads = pool.heads();
    let names = pool.names();
    let mut value = start.value;
    let mut end = at;
    for s in start.statement..heads.len() {
        if is_named(names, s, &words) {
            end = show_statement(pool, s, value, out, end);
        }
        value += value_count(heads[s]);
    }
    end
}

// The values of one statement, the first of which is at place `value`.
fn show_statement(pool: Undamaged, s: usize, value: usize, out: &mut [u8], at: usize) -> usize
    requires { Stating pool.words.now s value at out.old }
    ensures { Writes at (value_lines (each (stated pool.entry.words.now s))) out.old result out.new }
{
    let heads = pool.heads();
    let values = pool.values();
    let head = heads[s];
    let words = part_of(values, value, value_count(head));
    if holds_numbers(head) {
        return show_numbers(words, out, at);
    }
    let from = sum_bytes(&heads[..s], values) as usize;
    show_strings(pool.bytes(), from, words, out, at)
}

// Numbers: the bits of each on a line.
fn show_numbers(words: &[u64], out: &mut [u8], at: usize) -> usize
    requires { Room at (value_lines (map number words.now)) out.old }
    ensures { Writes at (value_lines (map number words.now)) out.old result out.new }
{
    let mut end = at;
    for word in words {
        end = write_line(out, end, *word);
    }
    end
}

// Strings of these lengths, one after the other from place `from` of the bytes on: each in quotes on a line.
fn show_strings(bytes: &[u64], from: usize, lengths: &[u64], out: &mut [u8], at: usize) -> usize
    requires { Spelling bytes.now from lengths.now at out.old }
    ensures { Writes at (spelt bytes.now from lengths.now) out.old result out.new }
{
    let mut byte = from;
    let mut end = at;
    for length in lengths {
        let n = *length as usize;
        end = write_quoted(out, end, bytes, byte, n);
        byte += n;
    }
    end
}
