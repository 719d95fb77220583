//! The columns of a record that is read.
ghost use Rattle.record.specs.Layout.{Column};
ghost use Rattle.record.specs.Recv.{read_column};
ghost use Rattle.record.specs.Views.{seen_column};

use fault::Fault;
use wire::cursor::{Cursor, Part};
use wire::oid::Oid;
use wire::read::read_value;
use wire::word::Word;

// Columns: the OID of each, and its value, none for NULL.
pub struct Columns;

impl<'a> Part<'a> for Columns {
    type Item = (Oid, Option<&'a [u8]>);

    ghost Form = { Column };

    ghost seen = { seen_column };

    ghost reader = { read_column };

    fn read(buf: &'a [u8], at: usize) -> Result<((Oid, Option<&'a [u8]>), usize), Fault> {
        let oid = u32::read(buf, at)?;
        let value = read_value(buf, at + 4)?;
        Ok(((oid, value), 8 + value.map_or(0, |payload| payload.len())))
    }
}

// The cursor over the columns.
pub type RecordColumns<'a> = Cursor<'a, Columns>;
