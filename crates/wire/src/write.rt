//! Bytes written at an offset.
ghost use Rattle.std.specs.Prelude.{◌≡◌};
ghost use Rattle.wire.specs.Encoding.{told_at, laid_at, fitted};

use fault::{Fault, Rule};

// Writes bytes at `at`, and answers the place behind them.
pub fn put_bytes(part: &mut [u8], at: usize, bytes: &[u8]) -> Result<usize, Fault>
    ensures answer { result ≡ told_at at bytes.now part.old }
    ensures after { part.new ≡ laid_at at bytes.now part.old }
{
    if part.len() < at || part.len() - at < bytes.len() {
        return Err(Fault::new(Rule::NoRoom, 0));
    }
    let end = at + bytes.len();
    part[at..end].copy_from_slice(bytes);
    Ok(end)
}

// A count or a length as a signed word holds it; rule 12 at `place` where it does not.
pub fn from_usize(n: usize, place: usize) -> Result<i32, Fault>
    ensures { result ≡ fitted n place }
{
    i32::try_from(n).map_err(|_| Fault::new(Rule::TooGreat, place))
}
