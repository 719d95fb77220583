//! Writing a range.
ghost use Rattle.std.specs.Prelude.{◌≡◌, ◌+◌, ◌≤◌, true, length, is_ok, None, Ok};
ghost use Rattle.wire.specs.Bytes.{put};
ghost use Rattle.wire.specs.Encoding.{told, laid, room_for};
ghost use Rattle.range.specs.Encoding.{bytes, bound_encoding, range_encoding};
ghost use Rattle.range.specs.Laws.{WrittenBack, Distinct};
ghost use Rattle.range.specs.Layout.{side_tag, tag, empty_layout};
ghost use Rattle.range.specs.Recv.{range_recv};

use crate::bound::RangeBound;
use crate::side::Side;
use fault::{Fault, Rule};
use serializer::nullable::write_nullable;
use serializer::serializer::Serializer;
use wire::word::Word;

// Writes the empty range to the start of the part, and answers the number of bytes.
pub fn empty_range_to_sql(part: &mut [u8]) -> Result<usize, Fault>
    ensures answer { result ≡ told (room_for (length part.old) (Ok empty_layout)) }
    ensures after { part.new ≡ laid (room_for (length part.old) (Ok empty_layout)) part.old }
    ensures written_back { range_recv empty_layout ≡ Ok None }
{
    u8::put(part, 0, 1)
}

// Writes a range to the start of the part, and answers the number of bytes. A bounded side names an
// item of the serializer. Both sizes are asked first, lower before upper.
pub fn range_to_sql<S: Serializer>(
    lower: RangeBound<usize>,
    upper: RangeBound<usize>,
    serializer: &S,
    part: &mut [u8],
) -> Result<usize, Fault>
    ensures answer { result ≡ told (room_for (length part.old) (range_encoding (S.Serializer.items serializer.now) lower upper)) }
    ensures after { part.new ≡ laid (room_for (length part.old) (range_encoding (S.Serializer.items serializer.now) lower upper)) part.old }
    ensures written_back { WrittenBack (S.Serializer.items serializer.now) lower upper }
    ensures distinct { Distinct (S.Serializer.items serializer.now) lower upper }
{
    encode(lower, upper, serializer, part)
}

// The number of bytes that `range_to_sql` writes.
pub fn range_size<S: Serializer>(
    lower: RangeBound<usize>,
    upper: RangeBound<usize>,
    serializer: &S,
) -> Result<usize, Fault>
    ensures { result ≡ told (range_encoding (S.Serializer.items serializer.now) lower upper) }
{
    let first = bound_size(lower, serializer)?;
    let second = bound_size(upper, serializer)?;
    Ok(1 + first + second)
}

// Measures, tests and then writes.
fn encode<S: Serializer>(
    lower: RangeBound<usize>,
    upper: RangeBound<usize>,
    serializer: &S,
    part: &mut [u8],
) -> Result<usize, Fault>
    ensures answer { result ≡ told (room_for (length part.old) (range_encoding (S.Serializer.items serializer.now) lower upper)) }
    ensures after { part.new ≡ laid (room_for (length part.old) (range_encoding (S.Serializer.items serializer.now) lower upper)) part.old }
{
    let first = bound_size(lower, serializer)?;
    let second = bound_size(upper, serializer)?;
    if part.len() < 1 + first + second {
        return Err(Fault::new(Rule::NoRoom, 0));
    }
    u8::put(part, 0, tag(lower, upper))?;
    let at = write_bound(lower, serializer, part, 1)?;
    write_bound(upper, serializer, part, at)
}

// The number of bytes of a bound with its length word.
fn bound_size<S: Serializer>(bound: RangeBound<usize>, serializer: &S) -> Result<usize, Fault>
    ensures { result ≡ told (bound_encoding (S.Serializer.items serializer.now) bound) }
{
    match bound {
        RangeBound::Inclusive(k) | RangeBound::Exclusive(k) => {
            let size = serializer.size(k)?;
            Ok(4 + size.unwrap_or(0))
        }
        RangeBound::Unbounded => Ok(0),
    }
}

// The tag: the bits of both sides.
fn tag(lower: RangeBound<usize>, upper: RangeBound<usize>) -> u8
    ensures { result ≡ tag lower upper }
{
    side_tag(lower, Side::LOWER) | side_tag(upper, Side::UPPER)
}

// The tag bits of a side with this bound.
fn side_tag(bound: RangeBound<usize>, side: Side) -> u8
    ensures { result ≡ side_tag side.inclusive side.unbounded bound }
{
    match bound {
        RangeBound::Inclusive(_) => side.inclusive,
        RangeBound::Exclusive(_) => 0,
        RangeBound::Unbounded => side.unbounded,
    }
}

// Writes a bound at `at`, and answers the place behind it.
fn write_bound<S: Serializer>(
    bound: RangeBound<usize>,
    serializer: &S,
    part: &mut [u8],
    at: usize,
) -> Result<usize, Fault>
    requires sound { is_ok (bound_encoding (S.Serializer.items serializer.now) bound) ≡ true }
    requires room { at + length (bytes (bound_encoding (S.Serializer.items serializer.now) bound)) ≤ length part.old }
    ensures answer { result ≡ Ok (at + length (bytes (bound_encoding (S.Serializer.items serializer.now) bound))) }
    ensures after { part.new ≡ put at (bytes (bound_encoding (S.Serializer.items serializer.now) bound)) part.old }
{
    match bound {
        RangeBound::Inclusive(k) | RangeBound::Exclusive(k) => {
            let size = write_nullable(serializer, k, &mut part[at..])?;
            Ok(at + size)
        }
        RangeBound::Unbounded => Ok(at),
    }
}
