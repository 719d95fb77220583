//! What a layer makes of one row.
ghost use Rattle.std.specs.Prelude.{◌≡◌, List, length};
ghost use Rattle.array.specs.Encoding.{counted};
ghost use Rattle.wire.specs.Encoding.{Encoding, told, laid, room_for};
ghost use Rattle.wire.specs.Items.{Item};

use fault::Fault;
use rows::encoded::Encoded;
use serializer::serializer::Serializer;

// A kind of row: an encoded value over the items below.
pub trait RowKind {
    type Row: Copy;

    // The bytes of a row over these items, or the first broken rule.
    ghost encoding: { Self → List Item → Self.Row → Encoding };

    // The number of bytes of a row, as far as a usize counts.
    fn size<S: Serializer>(&self, inner: &S, row: Self::Row) -> Result<usize, Fault>
        ensures { result ≡ counted (encoding self.now (S.Serializer.items inner.now) row) };

    // Writes a row to the start of the part, and answers the number of bytes.
    fn write<S: Serializer>(
        &self,
        inner: &S,
        row: Self::Row,
        part: &mut [u8],
    ) -> Result<usize, Fault>
        ensures answer { result ≡ told (room_for (length part.old) (encoding self.now (S.Serializer.items inner.now) row)) }
        ensures after { part.new ≡ laid (room_for (length part.old) (encoding self.now (S.Serializer.items inner.now) row)) part.old };
}

// One row of a kind, over a serializer.
#[derive(Drop)]
pub(crate) struct RowOver<'a, S, K: RowKind> {
    pub(crate) inner: &'a S,
    pub(crate) kind: &'a K,
    pub(crate) row: K::Row,
}

impl<'a, S: Serializer, K: RowKind> Encoded for RowOver<'a, S, K> {
    ghost encoding = { λ r. K.RowKind.encoding r.kind.now (S.Serializer.items r.inner.now) r.row };

    fn size(&self) -> Result<usize, Fault> {
        self.kind.size(self.inner, self.row)
    }

    fn write(&self, part: &mut [u8]) -> Result<usize, Fault> {
        self.kind.write(self.inner, self.row, part)
    }
}
