//! The requests, each by the rest of its line.
ghost use Rattle.std.specs.Prelude.{◌≡◌, [], length, IfOk, Ok};
ghost use Rattle.answers.specs.Plain.{answered, wrote};
ghost use Rattle.range.specs.Layout.{empty_layout};
ghost use Rattle.range.specs.Recv.{range_recv, seen_range};
ghost use Rattle.syntax.specs.Parsed.{bytes_in};
ghost use Rattle.rangeline.specs.Ranges.{range_text, range_answer, range_written, bound_in, lower_in};

use crate::bounds::{parse_bound, push_bound};
use answers::plain::{bad_request, refusal};
use answers::written::{blank_part, print_written};
use items::list::ItemList;
use lines::argument::{Reading, on_bytes};
use range::bound::Range;
use range::read;
use std::alloc::{AllocError, Global};
use syntax::parse::split_at_first;

// range_from_sql xB
pub fn range_from_sql(heap: Global, argument: &[u8]) -> Result<Vec<u8>, AllocError>
    ensures { IfOk result (λ v. v.items ≡ answered (λ bs. range_answer (range_recv bs)) (bytes_in argument.now)) }
{
    on_bytes::<ReadRange>(heap, argument)
}

// A range.
struct ReadRange;

impl Reading for ReadRange {
    ghost says = { λ bs. range_answer (range_recv bs) };

    fn answer(heap: Global, bytes: &[u8]) -> Result<Vec<u8>, AllocError> {
        match read::range_from_sql(bytes) {
            Ok(range) => print_range(heap, range),
            Err(fault) => refusal(heap, fault),
        }
    }
}

fn print_range(heap: Global, range: Range<'_>) -> Result<Vec<u8>, AllocError>
    ensures { IfOk result (λ v. v.items ≡ range_text (seen_range range.entry)) }
{
    match range {
        Range::Empty => Vec::from_slice(heap, b"range empty"),
        Range::Nonempty(lower, upper) => {
            let mut out = Vec::from_slice(heap, b"range lower=")?;
            push_bound(&mut out, lower)?;
            out.extend_from_slice(b" upper=")?;
            push_bound(&mut out, upper)?;
            Ok(out)
        }
    }
}

// range_to_sql B B
pub fn range_to_sql(heap: Global, argument: &[u8]) -> Result<Vec<u8>, AllocError>
    ensures { IfOk result (λ v. v.items ≡ range_written argument.now) }
{
    let Some((lower, upper)) = split_at_first(argument, b' ') else {
        return bad_request(heap);
    };
    let part = blank_part(heap, argument)?;
    write_range(heap, lower, upper, part)
}

// Writes the range that two words spell to the part.
fn write_range(
    heap: Global,
    lower: &[u8],
    upper: &[u8],
    mut part: Vec<u8>,
) -> Result<Vec<u8>, AllocError>
    ensures { IfOk result (λ v. v.items ≡ lower_in (length part.items) upper.now (bound_in [] lower.now)) }
{
    let mut slots = Vec::new(heap);
    let Some(lower) = parse_bound(heap, lower, &mut slots)? else {
        return bad_request(heap);
    };
    let Some(upper) = parse_bound(heap, upper, &mut slots)? else {
        return bad_request(heap);
    };
    let items = ItemList { slots };
    let written = range::write::range_to_sql(lower, upper, &items, &mut part);
    print_written(heap, written, &part)
}

// empty_range_to_sql
pub fn empty_range_to_sql(heap: Global) -> Result<Vec<u8>, AllocError>
    ensures { IfOk result (λ v. v.items ≡ wrote (Ok empty_layout)) }
{
    let mut part = [0u8; 1];
    let written = range::write::empty_range_to_sql(&mut part);
    print_written(heap, written, &part)
}
