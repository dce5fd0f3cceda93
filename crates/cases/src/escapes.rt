//! How a text is written on a line: `\n`, `\r`, `\t` and `\s` (a blank), `\x` and two hexadecimal digits for any byte, `\*128;` to have the last
//! line 128 times in all, and `''` for the empty text. Each other byte stands for itself.
use std::alloc::Global;

/// Repeats the last line until it is there `count` times.
fn repeat_last_line(bytes: &mut Vec<u8>, count: usize) -> Option<()> {
    let before = bytes.len().checked_sub(1)?;
    let front = bytes.iter().take(before).rposition(|byte| *byte == b'\n');
    let start = match front {
        Some(newline) => newline + 1,
        None => 0,
    };
    let times = count.checked_sub(1)?;
    let more = bytes.get(start..)?.repeat(*bytes.allocator(), times).ok()?;
    bytes.extend_from_slice(&more).ok()
}

/// Adds the byte that two hexadecimal digits are, and returns what stands behind them.
fn add_hex<'a>(bytes: &mut Vec<u8>, text: &'a str) -> Option<&'a str> {
    let (digits, rest) = text.split_at_checked(2)?;
    bytes.push(u8::from_str_radix(digits, 16).ok()?).ok()?;
    Some(rest)
}

/// Repeats the last line as often as the number up to a semicolon says, and returns what stands behind it.
fn add_repeated<'a>(bytes: &mut Vec<u8>, text: &'a str) -> Option<&'a str> {
    let (count, rest) = text.split_once(';')?;
    repeat_last_line(bytes, count.parse().ok()?)?;
    Some(rest)
}

/// The byte that a letter after a backslash stands for.
fn escaped(letter: &str) -> Option<u8> {
    match letter {
        "n" => Some(b'\n'),
        "r" => Some(b'\r'),
        "t" => Some(b'\t'),
        "s" => Some(b' '),
        _ => None,
    }
}

/// Adds what a piece after a backslash stands for.
fn add_piece(bytes: &mut Vec<u8>, piece: &str) -> Option<()> {
    let (letter, rest) = piece.split_at_checked(1)?;
    let rest = match letter {
        "x" => add_hex(bytes, rest)?,
        "*" => add_repeated(bytes, rest)?,
        _ => {
            bytes.push(escaped(letter)?).ok()?;
            rest
        }
    };
    bytes.extend_from_slice(rest.as_bytes()).ok()
}

/// Adds the bytes of a text.
pub(crate) fn add_bytes(bytes: &mut Vec<u8>, text: &str) -> Option<()> {
    let mut pieces = text.split('\\');
    bytes.extend_from_slice(pieces.next()?.as_bytes()).ok()?;
    for piece in pieces {
        add_piece(bytes, piece)?;
    }
    Some(())
}

/// The bytes of a text.
pub(crate) fn bytes_of(alloc: Global, text: &str) -> Option<Vec<u8>> {
    let mut bytes = Vec::new(alloc);
    if text != "''" {
        add_bytes(&mut bytes, text)?;
    }
    Some(bytes)
}
