//! The range layer.
ghost use Rattle.std.specs.Prelude.{◌≡◌, []};
ghost use Rattle.rows.specs.declared.row.RangeRow.TheVariants.{Empty, Bounds};
ghost use Rattle.rows.specs.Rows.{range_layer, range_row, rows_short};
ghost use Rattle.rows.specs.Tables.{rows_of, told_added, added};

use crate::row_kind::RowKind;
use crate::table_layer::{row_size, write_row};
use fault::Fault;
use range::bound::RangeBound;
use range::write::{empty_range_to_sql, range_size, range_to_sql};
use rows::row::RangeRow;
use rows::table::Table;
use rows::window::Window;
use serializer::serializer::Serializer;
use wire::oid::IsNull;

// Ranges of items below.
#[derive(Clone, Copy, Drop)]
pub struct Ranges;

// Ranges of items below, one to a row.
#[derive(Drop)]
pub struct RangeLayer<S> {
    inner: S,
    kind: Ranges,
    table: Table<RangeRow>,
}

impl<S> RangeLayer<S> {
    pub fn new(inner: S) -> RangeLayer<S>
        ensures { (result.inner ≡ inner) × (rows_of result.table ≡ []) }
    {
        RangeLayer {
            inner,
            kind: Ranges,
            table: Table::new(RangeRow::Empty),
        }
    }

    // Adds the empty range; rule 16 at 64 where 64 rows stand.
    pub fn add_empty(&mut self) -> Result<(), Fault>
        ensures answer { result ≡ told_added (rows_of self.old.table) }
        ensures after { rows_of self.new.table ≡ added (rows_of self.old.table) Empty }
        ensures same { self.new.inner ≡ self.old.inner }
    {
        self.table.add(RangeRow::Empty)
    }

    // Adds a range whose bounds name items below; rule 16 at 64 where 64 rows stand.
    pub fn add(&mut self, lower: RangeBound<u16>, upper: RangeBound<u16>) -> Result<(), Fault>
        ensures answer { result ≡ told_added (rows_of self.old.table) }
        ensures after { rows_of self.new.table ≡ added (rows_of self.old.table) (Bounds lower upper) }
        ensures same { self.new.inner ≡ self.old.inner }
    {
        self.table.add(RangeRow::Bounds(lower, upper))
    }
}

impl<S: Serializer> Serializer for RangeLayer<S> {
    ghost items = { λ l. range_layer (rows_of l.table) (S.Serializer.items l.inner) };

    ghost short = { λ l. rows_short (range_row (S.Serializer.items l.inner)) (rows_of l.table) };

    fn count(&self) -> usize {
        self.table.len()
    }

    fn size(&self, k: usize) -> Result<Option<usize>, Fault> {
        row_size(&self.inner, &self.kind, &self.table, k)
    }

    fn write(&self, k: usize, part: &mut [u8]) -> Result<IsNull, Fault> {
        write_row(&self.inner, &self.kind, &self.table, k, part)
    }
}

impl RowKind for Ranges {
    type Row = RangeRow;

    ghost encoding = { λ _ is row. range_row is row };

    fn size<S: Serializer>(&self, inner: &S, row: RangeRow) -> Result<usize, Fault> {
        match row {
            RangeRow::Empty => Ok(1),
            RangeRow::Bounds(lower, upper) => {
                let window = Window::new(inner, 0, 65536);
                range_size(RangeBound::from(lower), RangeBound::from(upper), &window)
            }
        }
    }

    fn write<S: Serializer>(
        &self,
        inner: &S,
        row: RangeRow,
        part: &mut [u8],
    ) -> Result<usize, Fault> {
        match row {
            RangeRow::Empty => empty_range_to_sql(part),
            RangeRow::Bounds(lower, upper) => {
                let window = Window::new(inner, 0, 65536);
                range_to_sql(
                    RangeBound::from(lower),
                    RangeBound::from(upper),
                    &window,
                    part,
                )
            }
        }
    }
}
