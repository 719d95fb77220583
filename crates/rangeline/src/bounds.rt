//! The bounds of a range as words.
ghost use Rattle.std.specs.Prelude.{◌≡◌, ℕ, ◌++◌, map, IfOk, OnOk};
ghost use Rattle.std.specs.Option.{option_map};
ghost use Rattle.answers.specs.Plain.{seen_value, value_text};
ghost use Rattle.items.specs.Slots.{slot_item};
ghost use Rattle.items.specs.Spelled.{item_in};
ghost use Rattle.range.specs.Recv.{seen_bound};
ghost use Rattle.syntax.specs.Parsed.{split_at};
ghost use Rattle.rangeline.specs.Ranges.{bound_text, with_item, bound_of_kind, bound_in};

use answers::plain::push_value;
use items::parse::parse_slot;
use items::slot::Slot;
use range::bound::RangeBound;
use std::alloc::{AllocError, Global};
use syntax::parse::split_at_first;

// Prints a bound that was read.
pub fn push_bound(out: &mut Vec<u8>, bound: RangeBound<Option<&[u8]>>) -> Result<(), AllocError>
    ensures { OnOk result (out.new.items ≡ out.old.items ++ bound_text (seen_bound bound.entry)) }
{
    match bound {
        RangeBound::Inclusive(value) => push_bounded(out, b"inc:", value),
        RangeBound::Exclusive(value) => push_bounded(out, b"exc:", value),
        RangeBound::Unbounded => out.extend_from_slice(b"unb"),
    }
}

// Prints the bound of a bounded side, its kind and its value.
fn push_bounded(out: &mut Vec<u8>, kind: &[u8], value: Option<&[u8]>) -> Result<(), AllocError>
    ensures { OnOk result (out.new.items ≡ out.old.items ++ (kind.now ++ value_text (seen_value value.entry))) }
{
    out.extend_from_slice(kind)?;
    push_value(out, value)
}

// The bound that a word spells; the item of a bounded side goes behind those that stand already.
pub fn parse_bound(
    heap: Global,
    word: &[u8],
    slots: &mut Vec<Slot>,
) -> Result<Option<RangeBound<usize>>, AllocError>
    ensures { IfOk result (λ o. option_map (λ b. (map slot_item slots.new.items, b)) o ≡ bound_in (map slot_item slots.old.items) word.now) }
{
    match word {
        b"unb" => Ok(Some(RangeBound::Unbounded)),
        _ => parse_bounded(heap, word, slots),
    }
}

// The bound of a bounded side, KIND:ITEM.
fn parse_bounded(
    heap: Global,
    word: &[u8],
    slots: &mut Vec<Slot>,
) -> Result<Option<RangeBound<usize>>, AllocError>
    ensures { IfOk result (λ o. option_map (λ b. (map slot_item slots.new.items, b)) o ≡ bound_of_kind (map slot_item slots.old.items) (split_at 58 word.now)) }
{
    let Some((kind, item)) = split_at_first(word, b':') else {
        return Ok(None);
    };
    // Nothing is read of an item that no kind of bound is said to have.
    match kind {
        b"inc" => Ok(parse_item(heap, item, slots)?.map(RangeBound::Inclusive)),
        b"exc" => Ok(parse_item(heap, item, slots)?.map(RangeBound::Exclusive)),
        _ => Ok(None),
    }
}

// The number of the item that a word spells, once it stands behind the others.
fn parse_item(heap: Global, word: &[u8], slots: &mut Vec<Slot>) -> Result<Option<usize>, AllocError>
    ensures { IfOk result (λ o. (kind : ℕ → RangeBound ℕ) → option_map (λ k. (map slot_item slots.new.items, kind k)) o ≡ with_item kind (map slot_item slots.old.items) (item_in word.now)) }
{
    let Some(slot) = parse_slot(heap, word)? else {
        return Ok(None);
    };
    let k = slots.len();
    slots.push(slot)?;
    Ok(Some(k))
}
