//! The elements of an array that is read.
ghost use Rattle.std.specs.Option.{option_map};
ghost use Rattle.wire.specs.Cursor.{read_nullable};
ghost use Rattle.wire.specs.Words.{Value};

use fault::Fault;
use wire::cursor::{Cursor, Part};
use wire::read::read_value;

// Elements, each behind its length word.
pub struct Values;

impl<'a> Part<'a> for Values {
    type Item = Option<&'a [u8]>;

    ghost Form = { Value };

    ghost seen = { λ v. option_map (λ x. x.now) v };

    ghost reader = { read_nullable };

    fn read(buf: &'a [u8], at: usize) -> Result<(Option<&'a [u8]>, usize), Fault> {
        let value = read_value(buf, at)?;
        Ok((value, 4 + value.map_or(0, |bytes| bytes.len())))
    }
}

// The cursor over the elements.
pub type ArrayValues<'a> = Cursor<'a, Values>;
