//! Numerals of instructions, directives and command lines, by one reader, so that all of them take the same spellings; and the digits that texts are written with.
ghost use Rattle.std.specs.Prelude.{◌≡◌, ◌<◌, ◌≤◌};
ghost use Rattle.std.specs.List.{list_all};
ghost use Rattle.std.specs.Char.{is_digit};
ghost use Rattle.ascii_scan.specs.Numeral.{hex_digit, in_base, numeral};

fn all_digits(bytes: &[u8], radix: u32) -> bool
    requires low { 2 ≤ radix }
    requires high { radix ≤ 16 }
    ensures { result ≡ list_all (λ d. is_digit d radix) bytes.now }
{
    bytes.iter().all(|b| char::from(*b).is_digit(radix))
}

/// The value of the digits in the base `radix`. None where one is no digit, where there is none, or from 2^32 on.
fn digits(bytes: &[u8], radix: u32) -> Option<u32>
    requires low { 2 ≤ radix }
    requires high { radix ≤ 16 }
    ensures { result ≡ in_base radix bytes.now }
{
    if all_digits(bytes, radix) {
        match str::from_utf8(bytes) {
            Ok(text) => u32::from_str_radix(text, radix).ok(),
            Err(_) => None,
        }
    } else {
        None
    }
}

/// The value of a numeral: decimal digits without a leading zero, or `0x` and hexadecimal digits of either case, below 2^32.
/// None where the bytes are no such numeral.
pub fn number(bytes: &[u8]) -> Option<u32>
    ensures { result ≡ numeral bytes.now }
{
    match bytes {
        [b'0', b'x', digits_after @ ..] => digits(digits_after, 16),
        [b'0', _, ..] => None,
        _ => digits(bytes, 10),
    }
}

/// The hexadecimal digit of a number below 16, in lower case.
pub fn hex_digit(digit: u32) -> u8
    requires { digit < 16 }
    ensures { result ≡ hex_digit digit }
{
    if digit < 10 {
        digit as u8 + b'0'
    } else {
        digit as u8 + (b'a' - 10)
    }
}
