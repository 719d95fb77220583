//! What is encoded, as the item.
ghost use Rattle.std.specs.Prelude.{[], ◌∷◌};
ghost use Rattle.rows.specs.Rows.{sealed, sealed_short};
ghost use Rattle.content.specs.Encoders.{only_short};

use crate::one_item::{Content, Only};
use fault::Fault;
use rows::encoded::{Encoded, sealed_size, write_sealed};
use serializer::serializer::Serializer;
use wire::oid::IsNull;

// An encoded value, as the item.
#[derive(Clone, Copy)]
pub struct One<E> {
    pub encoded: E,
}

impl<E: Encoded> Content for One<E> {
    ghost item = { λ o. sealed 0 (E.Encoded.encoding o.encoded) };

    ghost short = { λ o. sealed_short 0 (E.Encoded.encoding o.encoded) };

    fn size(&self) -> Result<Option<usize>, Fault> {
        sealed_size(&self.encoded, 0)
    }

    fn write(&self, part: &mut [u8]) -> Result<IsNull, Fault> {
        write_sealed(&self.encoded, 0, part)
    }
}

// Alone it is a serializer of its one item.
impl<E: Encoded> Serializer for One<E> {
    ghost items = { λ o. sealed 0 (E.Encoded.encoding o.encoded) ∷ [] };

    ghost short = { λ o. only_short (sealed 0 (E.Encoded.encoding o.encoded)) (sealed_short 0 (E.Encoded.encoding o.encoded)) };

    fn count(&self) -> usize {
        Only { content: self }.count()
    }

    fn size(&self, k: usize) -> Result<Option<usize>, Fault> {
        Only { content: self }.size(k)
    }

    fn write(&self, k: usize, part: &mut [u8]) -> Result<IsNull, Fault> {
        Only { content: self }.write(k, part)
    }
}
