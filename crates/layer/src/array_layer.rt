//! The array layer.
ghost use Rattle.std.specs.Prelude.{◌≡◌, ℕ, [], ◌∷◌, pos};
ghost use Rattle.rows.specs.Rows.{array_layer, array_row, rows_short};
ghost use Rattle.rows.specs.Tables.{rows_of, told_added, added};

use crate::row_kind::RowKind;
use crate::table_layer::{row_size, write_row};
use array::dimension::ArrayDimension;
use array::write::{array_size, array_to_sql};
use fault::Fault;
use rows::row::ArrayRow;
use rows::table::Table;
use rows::window::Window;
use serializer::serializer::Serializer;
use wire::oid::{IsNull, Oid};

// Arrays of items below, with an element OID of the layer's own.
#[derive(Clone, Copy, Drop)]
pub struct Arrays {
    pub(crate) oid: Oid,
}

// Arrays of items below, one to a row.
#[derive(Drop)]
pub struct ArrayLayer<S> {
    inner: S,
    kind: Arrays,
    table: Table<ArrayRow>,
}

impl<S> ArrayLayer<S> {
    pub fn new(inner: S, oid: Oid) -> ArrayLayer<S>
        ensures { (result.inner ≡ inner) × (result.kind.oid ≡ oid) × (rows_of result.table ≡ []) }
    {
        ArrayLayer {
            inner,
            kind: Arrays { oid },
            table: Table::new(ArrayRow { first: 0, count: 0 }),
        }
    }

    // Adds an array of `count` items from `first` on; rule 16 at 64 where 64 rows stand.
    pub fn add(&mut self, first: u16, count: u16) -> Result<(), Fault>
        ensures answer { result ≡ told_added (rows_of self.old.table) }
        ensures after { rows_of self.new.table ≡ added (rows_of self.old.table) (record { first = first; count = count }) }
        ensures same { (self.new.inner ≡ self.old.inner) × (self.new.kind ≡ self.old.kind) }
    {
        self.table.add(ArrayRow { first, count })
    }
}

impl<S: Serializer> Serializer for ArrayLayer<S> {
    ghost items = { λ l. array_layer l.kind.oid (rows_of l.table) (S.Serializer.items l.inner) };

    ghost short = { λ l. rows_short (array_row l.kind.oid (S.Serializer.items l.inner)) (rows_of l.table) };

    fn count(&self) -> usize {
        self.table.len()
    }

    fn size(&self, k: usize) -> Result<Option<usize>, Fault> {
        row_size(&self.inner, &self.kind, &self.table, k)
    }

    fn write(&self, k: usize, part: &mut [u8]) -> Result<IsNull, Fault> {
        write_row(&self.inner, &self.kind, &self.table, k, part)
    }
}

impl RowKind for Arrays {
    type Row = ArrayRow;

    ghost encoding = { λ a is row. array_row a.oid is row };

    fn size<S: Serializer>(&self, inner: &S, row: ArrayRow) -> Result<usize, Fault> {
        let window = Window::new(inner, row.first, u32::from(row.count));
        let dims = dimension(row);
        array_size(&dims[0..usize::from(row.count.min(1))], &window)
    }

    fn write<S: Serializer>(
        &self,
        inner: &S,
        row: ArrayRow,
        part: &mut [u8],
    ) -> Result<usize, Fault> {
        let window = Window::new(inner, row.first, u32::from(row.count));
        let dims = dimension(row);
        array_to_sql(
            &dims[0..usize::from(row.count.min(1))],
            self.oid,
            &window,
            part,
        )
    }
}

// The dimension of a row that has items: from 1 on.
fn dimension(row: ArrayRow) -> [ArrayDimension; 1]
    ensures { result ≡ record { len = pos row.count; lower_bound = pos 1 } ∷ [] }
{
    [ArrayDimension {
        len: i32::from(row.count),
        lower_bound: 1,
    }]
}
