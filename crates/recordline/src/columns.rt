//! The columns of a record as words.
ghost use Rattle.answers.proofs.Steps.{shows};
ghost use Rattle.answers.specs.Parts.{texts_of};
ghost use Rattle.record.specs.Recv.{read_column};
ghost use Rattle.record.specs.Views.{seen_column};
ghost use Rattle.recordline.specs.Records.{column_text};

use answers::parts::{CursorTexts, PartText};
use answers::plain::push_value;
use record::columns::Columns;
use std::alloc::AllocError;
use syntax::print::push_decimal;
use wire::oid::Oid;

// A column as OID=xB or OID=NULL.
pub struct ColumnText;

impl<'a> PartText<'a, Columns> for ColumnText {
    ghost text = { λ c. column_text (seen_column c) };

    ghost reads = { texts_of column_text read_column };

    ghost shows = { shows column_text read_column seen_column };

    fn push(out: &mut Vec<u8>, column: (Oid, Option<&'a [u8]>)) -> Result<(), AllocError> {
        let (oid, value) = column;
        push_decimal(out, u64::from(oid))?;
        out.push(b'=')?;
        push_value(out, value)
    }
}

// The columns that a cursor gives, as words.
pub type ColumnTexts<'a> = CursorTexts<'a, Columns, ColumnText>;
