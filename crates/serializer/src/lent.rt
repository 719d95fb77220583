//! A lent serializer.
use crate::serializer::Serializer;
use fault::Fault;
use wire::oid::IsNull;

// A serializer stays one when it is lent, with the same items.
impl<'a, S: Serializer> Serializer for &'a S {
    ghost items = { λ s. S.Serializer.items s.now };

    ghost short = { λ s. S.Serializer.short s.now };

    fn count(&self) -> usize {
        (**self).count()
    }

    fn size(&self, k: usize) -> Result<Option<usize>, Fault> {
        (**self).size(k)
    }

    fn write(&self, k: usize, part: &mut [u8]) -> Result<IsNull, Fault> {
        (**self).write(k, part)
    }
}
