// What a reply is told by: its number, line and column, each 0 for success. One function for `line` and `column` would be no plainer: it would
// have to be told the field.
use pool::reply::Refused;

pub fn number(reply: Result<(), Refused>) -> u32 {
    match reply {
        Ok(()) => 0,
        Err(refused) => refusal::number(refused.refusal),
    }
}

pub fn line(reply: Result<(), Refused>) -> usize {
    match reply {
        Ok(()) => 0,
        Err(refused) => refused.line,
    }
}

pub fn column(reply: Result<(), Refused>) -> usize {
    match reply {
        Ok(()) => 0,
        Err(refused) => refused.column,
    }
}
