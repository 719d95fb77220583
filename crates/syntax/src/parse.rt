//! Reading the words of a request.
ghost use Rattle.std.specs.Prelude.{◌≡◌, ◌-◌, ◌^◌, IfOk, Some, vec_items};
ghost use Rattle.std.specs.Option.{option_map};
ghost use Rattle.syntax.specs.Parsed.{nibble, byte_of, unhex, bytes_in, with_digit, at_most, number_in, split_at, seen_pair};

use std::alloc::{AllocError, Global};

// What stands before and behind the first separator, none where there is none.
pub fn split_at_first(text: &[u8], separator: u8) -> Option<(&[u8], &[u8])>
    ensures { seen_pair result ≡ split_at separator text.now }
{
    let at = text.iter().position(|c| *c == separator)?;
    Some((&text[..at], &text[at + 1..]))
}

// A decimal number up to `most`: digits alone, and at least one.
pub fn parse_number(text: &[u8], most: u64) -> Option<u64>
    ensures { result ≡ number_in most text.now }
{
    if text.is_empty() {
        return None;
    }
    let mut n = 0;
    for c in text {
        n = append_digit(n, *c)?;
    }
    if n <= most { Some(n) } else { None }
}

// The number with one more digit; none for another byte, and where the number passes 64 bits.
fn append_digit(n: u64, c: u8) -> Option<u64>
    ensures { result ≡ at_most (2 ^ 64 - 1) (with_digit (Some n) c) }
{
    match c {
        b'0'..=b'9' => n.checked_mul(10)?.checked_add(u64::from(c - b'0')),
        _ => None,
    }
}

// The bytes that hexadecimal digits stand for, two to a byte; none where a digit is missing or is
// none.
pub fn parse_hex(heap: Global, digits: &[u8]) -> Result<Option<Vec<u8>>, AllocError>
    ensures { IfOk result (λ o. option_map vec_items o ≡ unhex digits.now) }
{
    if digits.len() % 2 != 0 {
        return Ok(None);
    }
    let mut bytes = Vec::with_capacity(heap, digits.len() / 2)?;
    let mut rest = digits;
    while let [high, low, behind @ ..] = rest {
        match hex_byte(*high, *low) {
            Some(b) => bytes.push(b)?,
            None => return Ok(None),
        }
        rest = behind;
    }
    Ok(rest.is_empty().then_some(bytes))
}

// The byte of two digits.
fn hex_byte(high: u8, low: u8) -> Option<u8>
    ensures { result ≡ byte_of (nibble high) (nibble low) }
{
    Some(hex_value(high)? * 16 + hex_value(low)?)
}

// The number that a digit stands for; capital letters are none.
pub fn hex_value(c: u8) -> Option<u8>
    ensures { result ≡ nibble c }
{
    match c {
        b'0'..=b'9' => Some(c - b'0'),
        b'a'..=b'f' => Some(c - b'a' + 10),
        _ => None,
    }
}

// A byte string: x and its digits.
pub fn parse_bytes(heap: Global, word: &[u8]) -> Result<Option<Vec<u8>>, AllocError>
    ensures { IfOk result (λ o. option_map vec_items o ≡ bytes_in word.now) }
{
    match word {
        [b'x', digits @ ..] => parse_hex(heap, digits),
        _ => Ok(None),
    }
}
