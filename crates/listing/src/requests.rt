//! The requests, each by the rest of its line.
ghost use Rattle.std.specs.Prelude.{◌≡◌, IfOk};
ghost use Rattle.serializer.specs.Runs.{run_items};
ghost use Rattle.syntax.specs.Parsed.{bytes_in, split_at};
ghost use Rattle.listing.specs.Answers.{on_elements, on_places, element_list_answer, texts_answer};
ghost use Rattle.listing.specs.Lists.{list_in};
ghost use Rattle.listing.specs.Words.{place_in};

use crate::list::{Notation, parse_list};
use crate::print::print_items;
use crate::words::{Int4Notation, Int8Notation, PlaceNotation};
use answers::plain::bad_request;
use element::element::Element;
use serializer::elements::ElementList;
use std::alloc::{AllocError, Global};
use syntax::parse::{parse_bytes, split_at_first};
use texts::pools::Pools;
use texts::texts::Texts;

// `int4` or `int8` and a list of numbers: the items of that element list.
pub fn element_list(heap: Global, argument: &[u8]) -> Result<Vec<u8>, AllocError>
    ensures { IfOk result (λ v. v.items ≡ element_list_answer (split_at 32 argument.now)) }
{
    match split_at_first(argument, b' ') {
        Some((b"int4", list)) => print_elements::<Int4Notation>(heap, list),
        Some((b"int8", list)) => print_elements::<Int8Notation>(heap, list),
        _ => bad_request(heap),
    }
}

// The items of a list of elements.
fn print_elements<N: Notation>(heap: Global, list: &[u8]) -> Result<Vec<u8>, AllocError>
where
    N::Item: Element,
    ensures { IfOk result (λ v. v.items ≡ on_elements (run_items N.Item.value) (list_in N.Notation.reads list.now)) }
{
    let Some(run) = parse_list::<N>(heap, list)? else {
        return bad_request(heap);
    };
    print_items(heap, &ElementList::new(&run))
}

// Two pools and a list of places: the items of that texts source.
pub fn texts(heap: Global, argument: &[u8]) -> Result<Vec<u8>, AllocError>
    ensures { IfOk result (λ v. v.items ≡ texts_answer (split_at 32 argument.now)) }
{
    let Some((house, rest)) = split_at_first(argument, b' ') else {
        return bad_request(heap);
    };
    let Some((supplier, list)) = split_at_first(rest, b' ') else {
        return bad_request(heap);
    };
    print_texts(heap, house, supplier, list)
}

// The items of a texts source, by the words for its pools and its places.
fn print_texts(
    heap: Global,
    house: &[u8],
    supplier: &[u8],
    list: &[u8],
) -> Result<Vec<u8>, AllocError>
    ensures { IfOk result (λ v. v.items ≡ on_places (bytes_in house.now) (bytes_in supplier.now) (list_in place_in list.now)) }
{
    let Some(house) = parse_bytes(heap, house)? else {
        return bad_request(heap);
    };
    let Some(supplier) = parse_bytes(heap, supplier)? else {
        return bad_request(heap);
    };
    let Some(places) = parse_list::<PlaceNotation>(heap, list)? else {
        return bad_request(heap);
    };
    print_items(heap, &Texts::new(Pools::new(&house, &supplier), &places))
}
