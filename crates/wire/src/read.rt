//! Counts and the length word, read at an offset.
ghost use Rattle.std.specs.Prelude.{◌≡◌};
ghost use Rattle.wire.specs.Words.{count_at, ended, value_at, seen};

use crate::word::Word;
use fault::{Fault, Rule};

// The count at `at`: rule 4 there where it is below 0.
pub fn read_count(buf: &[u8], at: usize) -> Result<usize, Fault>
    ensures { result ≡ count_at buf.now at }
{
    let count = i32::read(buf, at)?;
    if count < 0 {
        return Err(Fault::new(Rule::Negative, at));
    }
    Ok(count as usize)
}

// The value behind the length word at `at`: NULL for any negative length, else that many bytes.
// No other function reads a length.
pub fn read_value(buf: &[u8], at: usize) -> Result<Option<&[u8]>, Fault>
    ensures { seen result ≡ value_at buf.now at }
{
    let length = i32::read(buf, at)?;
    if length < 0 {
        return Ok(None);
    }
    let length = length as usize;
    let start = at + 4;
    if buf.len() - start < length {
        return Err(Fault::new(Rule::Overrun, at));
    }
    Ok(Some(&buf[start..start + length]))
}

// Whether a value ends at `at`: rule 3 there where bytes remain.
pub fn read_end(buf: &[u8], at: usize) -> Result<(), Fault>
    ensures { result ≡ ended buf.now at tt }
{
    if buf.len() > at {
        return Err(Fault::new(Rule::Trailing, at));
    }
    Ok(())
}
