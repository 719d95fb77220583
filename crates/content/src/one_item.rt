//! What fills a column: one item.
ghost use Rattle.std.specs.Prelude.{◌≡◌, [], ◌∷◌, length};
ghost use Rattle.serializer.specs.Lists.{Short};
ghost use Rattle.wire.specs.Items.{Item, size_of, null_of, fitting, filled};
ghost use Rattle.content.specs.Encoders.{only_short};

use fault::{Fault, Rule};
use serializer::serializer::Serializer;
use wire::oid::IsNull;

pub trait Content {
    // NULL, a payload or a fault. No call changes it.
    ghost item: { Self → Item };

    // A payload has at most 2,147,483,647 bytes.
    ghost short: { (c : Self) → Short (item c) };

    // The length of the item, none for NULL, or its fault.
    fn size(&self) -> Result<Option<usize>, Fault>
        ensures { result ≡ size_of (item self.now) };

    // Writes the item to the start of the part, as a serializer does.
    fn write(&self, part: &mut [u8]) -> Result<IsNull, Fault>
        ensures answer { result ≡ null_of (fitting (length part.old) (item self.now)) }
        ensures after { part.new ≡ filled (fitting (length part.old) (item self.now)) part.old };
}

// A serializer of one item.
#[derive_where(Clone, Copy)]
pub struct Only<'a, C> {
    pub content: &'a C,
}

impl<'a, C: Content> Serializer for Only<'a, C> {
    ghost items = { λ o. C.Content.item o.content.now ∷ [] };

    ghost short = { λ o. only_short (C.Content.item o.content.now) (C.Content.short o.content.now) };

    fn count(&self) -> usize {
        1
    }

    fn size(&self, k: usize) -> Result<Option<usize>, Fault> {
        if k > 0 {
            return Err(Fault::new(Rule::Missing, k));
        }
        self.content.size()
    }

    fn write(&self, k: usize, part: &mut [u8]) -> Result<IsNull, Fault> {
        if k > 0 {
            return Err(Fault::new(Rule::Missing, k));
        }
        self.content.write(part)
    }
}
