use std::str::from_utf8;
use values::version::Key;

// One input line: a text, and the key to store it under.
#[derive(Clone, Copy, Drop)]
pub(crate) struct Request<'a> {
    pub(crate) key: Key,
    pub(crate) text: &'a str,
}

fn all_digits(text: &str) -> bool {
    text.bytes().all(|b| b.is_ascii_digit())
}

fn all_printable(text: &str) -> bool {
    text.bytes().all(|b| b.is_ascii_graphic())
}

// The key of two decimal numbers: a number of 32 bits and a seat of 16.
fn parse_key(number: &str, seat: &str) -> Option<Key> {
    if !all_digits(number) || !all_digits(seat) {
        return None;
    }
    let number = number.parse::<u32>().ok()?;
    let seat = seat.parse::<u16>().ok()?;
    Some(Key { number, seat })
}

// The request in a line `NUMBER SEAT TEXT`, whose parts stand one space apart, with a text of printable bytes.
pub(crate) fn parse(line: &[u8]) -> Option<Request<'_>> {
    let line = from_utf8(line).ok()?;
    let mut parts = line.split(' ');
    let number = parts.next()?;
    let seat = parts.next()?;
    let text = parts.next()?;
    if parts.next().is_some() || text.is_empty() || !all_printable(text) {
        return None;
    }
    let key = parse_key(number, seat)?;
    Some(Request { key, text })
}
