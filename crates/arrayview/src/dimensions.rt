//! The dimensions of an array that is read.
ghost use Rattle.array.specs.declared.dimension.ArrayDimension.{ArrayDimension};
ghost use Rattle.array.specs.Recv.{read_dimension};

use array::dimension::ArrayDimension;
use fault::Fault;
use wire::cursor::{Cursor, Part};
use wire::word::Word;

// Dimensions, of eight bytes each.
pub struct Dimensions;

impl<'a> Part<'a> for Dimensions {
    type Item = ArrayDimension;

    ghost Form = { ArrayDimension };

    ghost seen = { λ d. d };

    ghost reader = { read_dimension };

    fn read(buf: &'a [u8], at: usize) -> Result<(ArrayDimension, usize), Fault> {
        let len = i32::read(buf, at)?;
        let lower_bound = i32::read(buf, at + 4)?;
        Ok((ArrayDimension { len, lower_bound }, 8))
    }
}

// The cursor over the dimensions.
pub type ArrayDimensions<'a> = Cursor<'a, Dimensions>;
