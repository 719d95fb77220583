//! The request, by the rest of its line.
ghost use Rattle.std.specs.Prelude.{◌≡◌, IfOk};
ghost use Rattle.answers.specs.Plain.{answered};
ghost use Rattle.record.specs.Recv.{record_recv};
ghost use Rattle.wire.specs.Cursors.{state};
ghost use Rattle.syntax.specs.Parsed.{bytes_in};
ghost use Rattle.recordline.specs.Records.{record_text, record_answer};

use crate::columns::ColumnTexts;
use answers::parts::push_parts;
use answers::plain::{bad_request, refusal};
use record::columns::RecordColumns;
use std::alloc::{AllocError, Global};
use syntax::parse::parse_bytes;

// record_from_sql xB
pub fn record_from_sql(heap: Global, argument: &[u8]) -> Result<Vec<u8>, AllocError>
    ensures { IfOk result (λ v. v.items ≡ answered (λ bs. record_answer (record_recv bs)) (bytes_in argument.now)) }
{
    let Some(bytes) = parse_bytes(heap, argument)? else {
        return bad_request(heap);
    };
    match record::read::record_from_sql(&bytes) {
        Ok(columns) => print_columns(heap, columns),
        Err(fault) => refusal(heap, fault),
    }
}

// All that the cursor gives.
fn print_columns(heap: Global, columns: RecordColumns<'_>) -> Result<Vec<u8>, AllocError>
    ensures { IfOk result (λ v. v.items ≡ record_text (state columns.entry)) }
{
    let mut out = Vec::from_slice(heap, b"record ")?;
    push_parts(&mut out, &mut ColumnTexts::new(columns))?;
    Ok(out)
}
