use records::call::Call;
use std::str::from_utf8;
use values::secret::Secret;

// The only character of a part, if it has one.
fn sole_char(part: &str) -> Option<char> {
    let mut chars = part.chars();
    let only = chars.next()?;
    if chars.next().is_some() {
        return None;
    }
    Some(only)
}

// The number in a part of 1 to 4 decimal digits.
fn parse_number(part: &str) -> Option<usize> {
    if part.len() > 4 || !part.bytes().all(|b| b.is_ascii_digit()) {
        return None;
    }
    part.parse::<usize>().ok()
}

// The secret in a part of 1 to 48 printable bytes.
fn parse_secret(part: &str) -> Option<Secret> {
    if part.is_empty() || !part.bytes().all(|b| b.is_ascii_graphic()) {
        return None;
    }
    Secret::new(part.as_bytes()).ok()
}

// Whether a read is settled, from the part that says so.
fn parse_settled(part: &str) -> Option<bool> {
    match sole_char(part)? {
        'p' => Some(false),
        's' => Some(true),
        _ => None,
    }
}

// The call in a line: a letter, a number and perhaps one more part, one space apart.
pub(crate) fn parse(line: &[u8]) -> Option<Call<Secret>> {
    let line = from_utf8(line).ok()?;
    let mut parts = line.split(' ');
    let letter = sole_char(parts.next()?)?;
    let number = parse_number(parts.next()?)?;
    let last = parts.next();
    if parts.next().is_some() {
        return None;
    }
    match (letter, last) {
        ('w', Some(text)) => Some(Call::BeginWrite(number, parse_secret(text)?)),
        ('r', Some(kind)) => Some(Call::BeginRead(number, parse_settled(kind)?)),
        ('p', Some(provider)) => Some(Call::Post(number, parse_number(provider)?)),
        ('l', Some(provider)) => Some(Call::Land(number, parse_number(provider)?)),
        ('f', Some(provider)) => Some(Call::Fetch(number, parse_number(provider)?)),
        ('s', None) => Some(Call::Stop(number)),
        ('x', None) => Some(Call::Lose(number)),
        _ => None,
    }
}
