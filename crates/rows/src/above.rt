//! An item of a serializer as the level above sees it.
ghost use Rattle.std.specs.Prelude.{◌≡◌, length};
ghost use Rattle.rows.specs.Windows.{above};
ghost use Rattle.serializer.specs.Lists.{item_at};
ghost use Rattle.wire.specs.Items.{size_of, null_of, fitting, filled};

use fault::Fault;
use serializer::serializer::Serializer;
use wire::oid::IsNull;

// The size of item k; a fault of its own is one level further down.
pub fn size_above<S: Serializer>(inner: &S, k: usize) -> Result<Option<usize>, Fault>
    ensures { result ≡ size_of (above (item_at (S.Serializer.items inner.now) k)) }
{
    inner.size(k).map_err(Fault::raised)
}

// Writes item k to the start of the part. A fault of the item is seen from above; want of room is this
// call's own.
pub fn write_above<S: Serializer>(inner: &S, k: usize, part: &mut [u8]) -> Result<IsNull, Fault>
    ensures answer { result ≡ null_of (fitting (length part.old) (above (item_at (S.Serializer.items inner.now) k))) }
    ensures after { part.new ≡ filled (fitting (length part.old) (above (item_at (S.Serializer.items inner.now) k))) part.old }
{
    match inner.write(k, part) {
        Ok(null) => Ok(null),
        Err(fault) => {
            size_above(inner, k)?;
            Err(fault)
        }
    }
}
