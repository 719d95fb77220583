//! The requests, each by the rest of its line.
ghost use Rattle.std.specs.Prelude.{◌≡◌, IfOk};
ghost use Rattle.answers.specs.Plain.{answered};
ghost use Rattle.hstore.specs.Recv.{hstore_recv};
ghost use Rattle.wire.specs.Cursors.{state};
ghost use Rattle.syntax.specs.Parsed.{bytes_in};
ghost use Rattle.hstoreline.specs.Hstores.{hstore_text, hstore_answer, hstore_written};

use crate::entries::EntryTexts;
use crate::words::parse_entries;
use answers::parts::push_parts;
use answers::plain::{bad_request, refusal};
use answers::written::{blank_part, print_written};
use hstoreview::entries::HstoreEntries;
use std::alloc::{AllocError, Global};
use syntax::parse::parse_bytes;
use texts::pools::Pools;

// hstore_from_sql xB
pub fn hstore_from_sql(heap: Global, argument: &[u8]) -> Result<Vec<u8>, AllocError>
    ensures { IfOk result (λ v. v.items ≡ answered (λ bs. hstore_answer (hstore_recv bs)) (bytes_in argument.now)) }
{
    let Some(bytes) = parse_bytes(heap, argument)? else {
        return bad_request(heap);
    };
    match hstoreview::read::hstore_from_sql(&bytes) {
        Ok(entries) => print_entries(heap, entries),
        Err(fault) => refusal(heap, fault),
    }
}

// All that the cursor gives.
fn print_entries(heap: Global, entries: HstoreEntries<'_>) -> Result<Vec<u8>, AllocError>
    ensures { IfOk result (λ v. v.items ≡ hstore_text (state entries.entry)) }
{
    let mut out = Vec::from_slice(heap, b"hstore ")?;
    push_parts(&mut out, &mut EntryTexts::new(entries))?;
    Ok(out)
}

// hstore_to_sql [xKEY=xVALUE,xKEY=NULL,NULL=xVALUE,..]
pub fn hstore_to_sql(heap: Global, argument: &[u8]) -> Result<Vec<u8>, AllocError>
    ensures { IfOk result (λ v. v.items ≡ hstore_written argument.now) }
{
    let Some(list) = parse_entries(heap, argument)? else {
        return bad_request(heap);
    };
    let mut part = blank_part(heap, argument)?;
    let pools = Pools::new(&list.house, b"");
    let written = hstore::write::hstore_to_sql(pools, &list.entries, &mut part);
    print_written(heap, written, &part)
}
