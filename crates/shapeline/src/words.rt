//! Doubles and points as words.
ghost use Rattle.std.specs.Prelude.{◌≡◌, ◌++◌, OnOk};
ghost use Rattle.shapeline.specs.Words.{double_text, point_text, word_in, double_in, point_in};

use double::point::Point;
use double::word::{from_word, to_word};
use std::alloc::AllocError;
use syntax::parse::{hex_value, split_at_first};
use syntax::print::push_hex;

// Prints the digits of a double's word.
fn push_double(out: &mut Vec<u8>, x: f64) -> Result<(), AllocError>
    ensures { OnOk result (out.new.items ≡ out.old.items ++ double_text x) }
{
    push_hex(out, &to_word(x).to_be_bytes())
}

// Prints the coordinates of a point with a separator between them.
pub fn push_point(out: &mut Vec<u8>, point: Point, separator: u8) -> Result<(), AllocError>
    ensures { OnOk result (out.new.items ≡ out.old.items ++ point_text separator point) }
{
    push_double(out, point.x())?;
    out.push(separator)?;
    push_double(out, point.y())
}

// The point that two words make, with a separator between them.
pub fn parse_point(word: &[u8], separator: u8) -> Option<Point>
    ensures { result ≡ point_in separator word.now }
{
    let (x, y) = split_at_first(word, separator)?;
    Some(Point::new(parse_double(x)?, parse_double(y)?))
}

// The double whose word is given by its digits.
pub fn parse_double(digits: &[u8]) -> Option<f64>
    ensures { result ≡ double_in digits.now }
{
    Some(from_word(parse_word(digits)?))
}

// The word of exactly 16 digits.
fn parse_word(digits: &[u8]) -> Option<u64>
    ensures { result ≡ word_in digits.now }
{
    if digits.len() != 16 {
        return None;
    }
    let mut word: u64 = 0;
    for c in digits {
        word = word * 16 + u64::from(hex_value(*c)?);
    }
    Some(word)
}
