//! The requests, each by the rest of its line.
ghost use Rattle.std.specs.Prelude.{◌≡◌, ◌-◌, ◌^◌, length, IfOk};
ghost use Rattle.answers.specs.Plain.{answered};
ghost use Rattle.array.specs.Recv.{array_recv};
ghost use Rattle.arrayview.specs.Views.{opened};
ghost use Rattle.items.specs.Spelled.{item_in};
ghost use Rattle.listing.specs.Lists.{list_in};
ghost use Rattle.syntax.specs.Parsed.{bytes_in, number_in};
ghost use Rattle.arrayline.specs.Arrays.{array_text, array_answer, array_written, dimension_in, written};

use crate::parts::{DimensionTexts, ValueTexts};
use crate::words::DimensionNotation;
use answers::parts::push_parts;
use answers::plain::{bad_request, push_flag, refusal};
use answers::written::{blank_part, print_written};
use arrayview::read::{self, Array};
use items::parse::parse_items;
use lines::argument::{Reading, on_bytes};
use listing::list::parse_list;
use std::alloc::{AllocError, Global};
use syntax::parse::{parse_number, split_at_first};
use syntax::print::push_decimal;

// array_from_sql xB
pub fn array_from_sql(heap: Global, argument: &[u8]) -> Result<Vec<u8>, AllocError>
    ensures { IfOk result (λ v. v.items ≡ answered (λ bs. array_answer (array_recv bs)) (bytes_in argument.now)) }
{
    on_bytes::<ReadArray>(heap, argument)
}

// An array.
struct ReadArray;

impl Reading for ReadArray {
    ghost says = { λ bs. array_answer (array_recv bs) };

    fn answer(heap: Global, bytes: &[u8]) -> Result<Vec<u8>, AllocError> {
        match read::array_from_sql(bytes) {
            Ok(array) => print_array(heap, &array),
            Err(fault) => refusal(heap, fault),
        }
    }
}

// An opened array with all that its cursors give.
fn print_array(heap: Global, array: &Array<'_>) -> Result<Vec<u8>, AllocError>
    ensures { IfOk result (λ v. v.items ≡ array_text (opened array.now)) }
{
    let mut out = Vec::from_slice(heap, b"array nulls=")?;
    push_flag(&mut out, array.has_nulls())?;
    out.extend_from_slice(b" oid=")?;
    push_decimal(&mut out, u64::from(array.element_type()))?;
    out.extend_from_slice(b" dims=")?;
    push_parts(&mut out, &mut DimensionTexts::new(array.dimensions()))?;
    out.extend_from_slice(b" values=")?;
    push_parts(&mut out, &mut ValueTexts::new(array.values()))?;
    Ok(out)
}

// array_to_sql OID [LENGTH:LOWER,..] [xB,NULL,..]
pub fn array_to_sql(heap: Global, argument: &[u8]) -> Result<Vec<u8>, AllocError>
    ensures { IfOk result (λ v. v.items ≡ array_written argument.now) }
{
    let Some((oid, lists)) = split_at_first(argument, b' ') else {
        return bad_request(heap);
    };
    let Some((dims, items)) = split_at_first(lists, b' ') else {
        return bad_request(heap);
    };
    let part = blank_part(heap, argument)?;
    write_array(heap, oid, dims, items, part)
}

// Writes the array that three words spell to the part.
fn write_array(
    heap: Global,
    oid: &[u8],
    dims: &[u8],
    items: &[u8],
    mut part: Vec<u8>,
) -> Result<Vec<u8>, AllocError>
    ensures { IfOk result (λ v. v.items ≡ written (length part.items) (number_in (2 ^ 32 - 1) oid.now) (list_in dimension_in dims.now) (list_in item_in items.now)) }
{
    let Some(oid) = parse_number(oid, u64::from(u32::MAX)) else {
        return bad_request(heap);
    };
    let Some(dims) = parse_list::<DimensionNotation>(heap, dims)? else {
        return bad_request(heap);
    };
    let Some(items) = parse_items(heap, items)? else {
        return bad_request(heap);
    };
    let written = array::write::array_to_sql(&dims, oid as u32, &items, &mut part);
    print_written(heap, written, &part)
}
