//! An item behind its length word.
ghost use Rattle.std.specs.Prelude.{◌≡◌, length};
ghost use Rattle.wire.specs.Encoding.{told, laid, room_for};
ghost use Rattle.wire.specs.Items.{nullable_item};
ghost use Rattle.serializer.specs.Lists.{item_at};

use crate::serializer::Serializer;
use fault::{Fault, Rule};
use wire::word::Word;

// Writes item k behind its length word, -1 for NULL, to the start of the part, and answers the
// number of bytes. The part behind the length word is lent on to the serializer.
pub fn write_nullable<S: Serializer>(
    serializer: &S,
    k: usize,
    part: &mut [u8],
) -> Result<usize, Fault>
    ensures answer { result ≡ told (room_for (length part.old) (nullable_item (item_at (S.Serializer.items serializer.now) k))) }
    ensures after { part.new ≡ laid (room_for (length part.old) (nullable_item (item_at (S.Serializer.items serializer.now) k))) part.old }
{
    match serializer.size(k)? {
        None => i32::put(part, 0, -1),
        Some(length) => {
            if part.len() < 4 + length {
                return Err(Fault::new(Rule::NoRoom, 0));
            }
            u32::put(part, 0, length as u32)?;
            serializer.write(k, &mut part[4..])?;
            Ok(4 + length)
        }
    }
}
