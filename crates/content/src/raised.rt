//! The items of a serializer, as a call sees them.
ghost use Rattle.std.specs.Prelude.{map};
ghost use Rattle.rows.specs.Windows.{above};
ghost use Rattle.content.specs.Encoders.{raised_short};

use fault::{Fault, Rule};
use rows::above::{size_above, write_above};
use serializer::serializer::Serializer;
use wire::oid::IsNull;

// The same items, every fault one level further down.
#[derive_where(Clone, Copy)]
pub struct Raised<'a, S> {
    pub inner: &'a S,
}

impl<'a, S: Serializer> Serializer for Raised<'a, S> {
    ghost items = { λ r. map above (S.Serializer.items r.inner.now) };

    ghost short = { λ r. raised_short (S.Serializer.items r.inner.now) (S.Serializer.short r.inner.now) };

    fn count(&self) -> usize {
        self.inner.count()
    }

    fn size(&self, k: usize) -> Result<Option<usize>, Fault> {
        if k >= self.inner.count() {
            return Err(Fault::new(Rule::Missing, k));
        }
        size_above(self.inner, k)
    }

    fn write(&self, k: usize, part: &mut [u8]) -> Result<IsNull, Fault> {
        if k >= self.inner.count() {
            return Err(Fault::new(Rule::Missing, k));
        }
        write_above(self.inner, k, part)
    }
}
