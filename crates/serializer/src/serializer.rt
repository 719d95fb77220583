//! What a serializer is.
ghost use Rattle.std.specs.Prelude.{◌≡◌, ℕ, List, length};
ghost use Rattle.wire.specs.Items.{Item, size_of, null_of, fitting, filled};
ghost use Rattle.serializer.specs.Lists.{Short, item_at};

use fault::Fault;
use wire::oid::IsNull;

pub trait Serializer {
    // What it means: a list of NULLs, payloads and faults. No call changes it.
    ghost items: { Self → List Item };

    // A payload has at most 2,147,483,647 bytes.
    ghost short: { (s : Self) (k : ℕ) → Short (item_at (items s) k) };

    // The length of the list.
    fn count(&self) -> usize
        ensures { result ≡ length (items self.now) };

    // The length of item k, none for NULL: rule 10 at k where there is no such item, else the item's
    // own fault.
    fn size(&self, k: usize) -> Result<Option<usize>, Fault>
        ensures { result ≡ size_of (item_at (items self.now) k) };

    // Writes item k to the start of the part and leaves the rest; refuses as `size` does, then with
    // rule 11 at 0 where the payload is longer than the part. NULL writes nothing.
    fn write(&self, k: usize, part: &mut [u8]) -> Result<IsNull, Fault>
        ensures answer { result ≡ null_of (fitting (length part.old) (item_at (items self.now) k)) }
        ensures after { part.new ≡ filled (fitting (length part.old) (item_at (items self.now) k)) part.old };
}
