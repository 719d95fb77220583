//! Reading a range.
ghost use Rattle.std.specs.Prelude.{◌≡◌};
ghost use Rattle.range.specs.Laws.{ReadsBack, OnlyForms};
ghost use Rattle.range.specs.Recv.{bound_at, told_bound, told_range, range_recv};

use crate::bound::{Range, RangeBound};
use crate::side::Side;
use fault::Fault;
use wire::read::{read_end, read_value};
use wire::word::Word;

// Reads a range whole. Every odd tag is the empty range, and unknown tag bits are ignored.
pub fn range_from_sql(buf: &[u8]) -> Result<Range<'_>, Fault>
    ensures answer { told_range result ≡ range_recv buf.now }
    ensures reads_back { ReadsBack buf.now }
    ensures only_forms { OnlyForms buf.now }
{
    decode(buf)
}

// Behind an odd tag, and behind the bounds of an even one, no byte may remain.
fn decode(buf: &[u8]) -> Result<Range<'_>, Fault>
    ensures { told_range result ≡ range_recv buf.now }
{
    let tag = u8::read(buf, 0)?;
    if tag & 1 != 0 {
        read_end(buf, 1)?;
        return Ok(Range::Empty);
    }
    let (lower, at) = read_bound(buf, 1, tag, Side::LOWER)?;
    let (upper, end) = read_bound(buf, at, tag, Side::UPPER)?;
    read_end(buf, end)?;
    Ok(Range::Nonempty(lower, upper))
}

// The bound at `at`, by the tag bits of its side, and the place behind it. An unbounded side has no
// bytes, whatever its inclusive bit.
fn read_bound(
    buf: &[u8],
    at: usize,
    tag: u8,
    side: Side,
) -> Result<(RangeBound<Option<&[u8]>>, usize), Fault>
    ensures { told_bound result ≡ bound_at tag side.inclusive side.unbounded buf.now at }
{
    if tag & side.unbounded != 0 {
        return Ok((RangeBound::Unbounded, at));
    }
    let value = read_value(buf, at)?;
    let end = match value {
        None => at + 4,
        Some(payload) => at + 4 + payload.len(),
    };
    if tag & side.inclusive != 0 {
        Ok((RangeBound::Inclusive(value), end))
    } else {
        Ok((RangeBound::Exclusive(value), end))
    }
}
