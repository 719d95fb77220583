//! Ranges.
ghost use Rattle.std.specs.Prelude.{◌≡◌, Ok};
ghost use Rattle.range.specs.Layout.{empty_layout};
ghost use Rattle.content.specs.Encoders.{range_content};

use fault::Fault;
use range::bound::RangeBound;
use range::write::{empty_range_to_sql, range_size, range_to_sql};
use rows::encoded::Encoded;
use serializer::serializer::Serializer;

// Two bounds that name items of a serializer.
#[derive_where(Clone, Copy)]
pub struct RangeContent<'a, S> {
    pub lower: RangeBound<usize>,
    pub upper: RangeBound<usize>,
    pub serializer: &'a S,
}

impl<'a, S: Serializer> Encoded for RangeContent<'a, S> {
    ghost encoding = { λ r. range_content r.lower r.upper (S.Serializer.items r.serializer.now) };

    fn size(&self) -> Result<usize, Fault> {
        range_size(self.lower, self.upper, self.serializer).map_err(Fault::raised)
    }

    fn write(&self, part: &mut [u8]) -> Result<usize, Fault> {
        match range_to_sql(self.lower, self.upper, self.serializer, part) {
            Ok(size) => Ok(size),
            // A fault of an item is seen from above; want of room is this call's own.
            Err(fault) => {
                self.size()?;
                Err(fault)
            }
        }
    }
}

// The empty range.
#[derive(Clone, Copy)]
pub struct EmptyRange;

impl Encoded for EmptyRange {
    ghost encoding = { λ _. Ok empty_layout };

    fn size(&self) -> Result<usize, Fault> {
        Ok(1)
    }

    fn write(&self, part: &mut [u8]) -> Result<usize, Fault> {
        empty_range_to_sql(part)
    }
}
