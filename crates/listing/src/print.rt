//! Printing items.
ghost use Rattle.std.specs.Prelude.{◌≡◌, ◌++◌, IfOk, OnOk};
ghost use Rattle.serializer.specs.Lists.{item_at};
ghost use Rattle.listing.specs.Answers.{item_text, items_text};

use answers::plain::{push_bytes, push_failure};
use serializer::serializer::Serializer;
use std::alloc::{AllocError, Global};

// The items of a serializer, each written out by it.
pub fn print_items<S: Serializer>(heap: Global, serializer: &S) -> Result<Vec<u8>, AllocError>
    ensures { IfOk result (λ v. v.items ≡ items_text (S.Serializer.items serializer.now)) }
{
    let mut out = Vec::from_slice(heap, b"items [")?;
    for k in 0..serializer.count() {
        if k > 0 {
            out.push(b',')?;
        }
        push_item(heap, &mut out, serializer, k)?;
    }
    out.push(b']')?;
    Ok(out)
}

// Prints item k to the end of what is there.
fn push_item<S: Serializer>(
    heap: Global,
    out: &mut Vec<u8>,
    serializer: &S,
    k: usize,
) -> Result<(), AllocError>
    ensures { OnOk result (out.new.items ≡ out.old.items ++ item_text (item_at (S.Serializer.items serializer.now) k)) }
{
    let length = match serializer.size(k) {
        Ok(Some(length)) => length,
        Ok(None) => return out.extend_from_slice(b"NULL"),
        Err(fault) => return push_failure(out, fault),
    };
    let mut payload = vec![in heap; 0; length]?;
    match serializer.write(k, &mut payload) {
        Ok(_) => push_bytes(out, &payload),
        Err(fault) => push_failure(out, fault),
    }
}
