//! A dimension as a word.
ghost use Rattle.arrayline.specs.Arrays.{dimension_in};

use array::dimension::ArrayDimension;
use listing::list::Notation;
use listing::words::parse_int4;
use syntax::parse::split_at_first;

// LENGTH:LOWER
pub struct DimensionNotation;

impl Notation for DimensionNotation {
    type Item = ArrayDimension;

    ghost reads = { dimension_in };

    fn parse(word: &[u8]) -> Option<ArrayDimension> {
        let (len, lower_bound) = split_at_first(word, b':')?;
        Some(ArrayDimension {
            len: parse_int4(len)?,
            lower_bound: parse_int4(lower_bound)?,
        })
    }
}
