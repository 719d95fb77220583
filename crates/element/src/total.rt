//! The size of a run.
ghost use Rattle.std.specs.Prelude.{◌≡◌, map};
ghost use Rattle.element.specs.Totals.{total};

use crate::element::Element;
use fault::{Fault, Rule};

// The number of bytes of all payloads of a run; rule 12 at 0 where it is above 2,147,483,647, since
// no single element is at fault.
pub fn total_size<T: Element>(run: &[T]) -> Result<usize, Fault>
    ensures { result ≡ total (map T.Element.value run.now) }
{
    let mut bytes: usize = 0;
    for element in run {
        bytes = bytes.saturating_add(element.size().unwrap_or(0));
    }
    if bytes > 0x7FFF_FFFF {
        return Err(Fault::new(Rule::TooGreat, 0));
    }
    Ok(bytes)
}
