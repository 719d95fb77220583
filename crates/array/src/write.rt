//! Writing an array.
ghost use Rattle.std.specs.Prelude.{◌≡◌, ℕ, ◌+◌, ◌*◌, ◌≤◌, length, None, Ok};
ghost use Rattle.wire.specs.Bytes.{put};
ghost use Rattle.wire.specs.Encoding.{told, laid, room_for};
ghost use Rattle.serializer.specs.Lists.{values, first_fault};
ghost use Rattle.array.specs.Encoding.{extent, array_encoding, counted};
ghost use Rattle.array.specs.Laws.{WrittenBack, Distinct};
ghost use Rattle.array.specs.Layout.{dimension, dimensions, elements};

use crate::dimension::ArrayDimension;
use fault::{Fault, Rule};
use serializer::nullable::write_nullable;
use serializer::serializer::Serializer;
use wire::oid::Oid;
use wire::word::Word;
use wire::write::from_usize;

// What the sizes of all items tell: the bytes of the elements, and whether one is NULL.
#[derive(Clone, Copy)]
pub struct Extent {
    bytes: usize,
    nulls: bool,
}

// Writes an array of every item to the start of the part, and answers the number of bytes. Items and
// dimensions are not compared. All sizes are asked before a byte is written.
pub fn array_to_sql<S: Serializer>(
    dims: &[ArrayDimension],
    oid: Oid,
    serializer: &S,
    part: &mut [u8],
) -> Result<usize, Fault>
    ensures answer { result ≡ told (room_for (length part.old) (array_encoding dims.now oid (S.Serializer.items serializer.now))) }
    ensures after { part.new ≡ laid (room_for (length part.old) (array_encoding dims.now oid (S.Serializer.items serializer.now))) part.old }
    ensures written_back { WrittenBack dims.now oid (values (S.Serializer.items serializer.now)) }
    ensures distinct { Distinct dims.now oid (values (S.Serializer.items serializer.now)) }
{
    encode(dims, oid, serializer, part)
}

// The number of bytes that `array_to_sql` writes for any element OID, as far as a usize counts.
pub fn array_size<S: Serializer>(dims: &[ArrayDimension], serializer: &S) -> Result<usize, Fault>
    ensures { (oid : ℕ) → result ≡ counted (array_encoding dims.now oid (S.Serializer.items serializer.now)) }
{
    let extent = measure(serializer)?;
    from_usize(dims.len(), 0)?;
    Ok(extent.bytes.saturating_add(12 + 8 * dims.len()))
}

// Measures, tests and then writes.
fn encode<S: Serializer>(
    dims: &[ArrayDimension],
    oid: Oid,
    serializer: &S,
    part: &mut [u8],
) -> Result<usize, Fault>
    ensures answer { result ≡ told (room_for (length part.old) (array_encoding dims.now oid (S.Serializer.items serializer.now))) }
    ensures after { part.new ≡ laid (room_for (length part.old) (array_encoding dims.now oid (S.Serializer.items serializer.now))) part.old }
{
    let extent = measure(serializer)?;
    let count = from_usize(dims.len(), 0)?;
    let start = 12 + 8 * dims.len();
    if part.len() < extent.bytes || part.len() - extent.bytes < start {
        return Err(Fault::new(Rule::NoRoom, 0));
    }
    i32::put(part, 0, count)?;
    u32::put(part, 4, u32::from(extent.nulls))?;
    u32::put(part, 8, oid)?;
    put_dimensions(part, dims)?;
    write_elements(serializer, part, start)
}

// Asks for all sizes, in order.
fn measure<S: Serializer>(serializer: &S) -> Result<Extent, Fault>
    ensures { result ≡ extent (S.Serializer.items serializer.now) }
{
    let mut bytes: usize = 0;
    let mut nulls = false;
    for k in 0..serializer.count() {
        let size = serializer.size(k)?;
        bytes = bytes.saturating_add(4 + size.unwrap_or(0));
        nulls |= size.is_none();
    }
    Ok(Extent { bytes, nulls })
}

// Writes a dimension at `at`.
fn put_dimension(part: &mut [u8], at: usize, dim: ArrayDimension) -> Result<usize, Fault>
    requires { at + 8 ≤ length part.old }
    ensures answer { result ≡ Ok (at + 8) }
    ensures after { part.new ≡ put at (dimension dim) part.old }
{
    let at = i32::put(part, at, dim.len)?;
    i32::put(part, at, dim.lower_bound)
}

// Writes the dimensions behind the three words of the head.
fn put_dimensions(part: &mut [u8], dims: &[ArrayDimension]) -> Result<usize, Fault>
    requires { 12 + 8 * length dims.now ≤ length part.old }
    ensures answer { result ≡ Ok (12 + 8 * length dims.now) }
    ensures after { part.new ≡ put 12 (dimensions dims.now) part.old }
{
    let mut at = 12;
    for dim in dims {
        at = put_dimension(part, at, *dim)?;
    }
    Ok(at)
}

// Writes every item behind its length word from `start` on, and answers where they end.
fn write_elements<S: Serializer>(
    serializer: &S,
    part: &mut [u8],
    start: usize,
) -> Result<usize, Fault>
    requires sound { first_fault (S.Serializer.items serializer.now) ≡ None }
    requires room { start + length (elements (values (S.Serializer.items serializer.now))) ≤ length part.old }
    ensures answer { result ≡ Ok (start + length (elements (values (S.Serializer.items serializer.now)))) }
    ensures after { part.new ≡ put start (elements (values (S.Serializer.items serializer.now))) part.old }
{
    // Each item tells its own length only when it is written, so the place is added up.
    let mut at = start;
    for k in 0..serializer.count() {
        at += write_nullable(serializer, k, &mut part[at..])?;
    }
    Ok(at)
}
