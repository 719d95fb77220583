//! What the layers share: the rows of a table as items.
ghost use Rattle.std.specs.Prelude.{◌≡◌, length};
ghost use Rattle.rows.specs.Rows.{row_items};
ghost use Rattle.rows.specs.Tables.{rows_of};
ghost use Rattle.serializer.specs.Lists.{item_at};
ghost use Rattle.wire.specs.Items.{size_of, null_of, fitting, filled};

use crate::row_kind::{RowKind, RowOver};
use fault::Fault;
use rows::encoded::{sealed_size, write_sealed};
use rows::table::Table;
use serializer::serializer::Serializer;
use wire::oid::IsNull;

// The size of row k over the items below. The layers are structs of their own: one that is generic in
// its rows would ask of each caller that it is not too large.
pub(crate) fn row_size<S: Serializer, K: RowKind>(
    inner: &S,
    kind: &K,
    table: &Table<K::Row>,
    k: usize,
) -> Result<Option<usize>, Fault>
    ensures { result ≡ size_of (item_at (row_items (K.RowKind.encoding kind.now (S.Serializer.items inner.now)) 0 (rows_of table.now)) k) }
{
    let row = table.row(k)?;
    sealed_size(&RowOver { inner, kind, row }, k)
}

// Writes row k to the start of the part.
pub(crate) fn write_row<S: Serializer, K: RowKind>(
    inner: &S,
    kind: &K,
    table: &Table<K::Row>,
    k: usize,
    part: &mut [u8],
) -> Result<IsNull, Fault>
    ensures answer { result ≡ null_of (fitting (length part.old) (item_at (row_items (K.RowKind.encoding kind.now (S.Serializer.items inner.now)) 0 (rows_of table.now)) k)) }
    ensures after { part.new ≡ filled (fitting (length part.old) (item_at (row_items (K.RowKind.encoding kind.now (S.Serializer.items inner.now)) 0 (rows_of table.now)) k)) part.old }
{
    let row = table.row(k)?;
    write_sealed(&RowOver { inner, kind, row }, k, part)
}
