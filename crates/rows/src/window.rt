//! Some items of a serializer, as the layer above sees them.
ghost use Rattle.std.specs.Prelude.{◌≡◌};
ghost use Rattle.rows.specs.Windows.{number_at, window, window_short};

use crate::above::{size_above, write_above};
use fault::{Fault, Rule};
use serializer::serializer::Serializer;
use wire::oid::IsNull;

// So many items from the first on. An item that is not there is a fault at its number; every fault
// is one level further down.
#[derive_where(Clone, Copy)]
pub struct Window<'a, S> {
    inner: &'a S,
    first: u16,
    count: u32,
}

impl<'a, S> Window<'a, S> {
    pub fn new(inner: &'a S, first: u16, count: u32) -> Window<'a, S>
        ensures { (result.inner.now ≡ inner.now) × (result.first ≡ first) × (result.count ≡ count) }
    {
        Window {
            inner,
            first,
            count,
        }
    }

    // The number of item k in the serializer below.
    fn number(&self, k: usize) -> Result<usize, Fault>
        ensures { result ≡ number_at self.now.first self.now.count k }
    {
        if k >= self.count as usize {
            return Err(Fault::new(Rule::Missing, k));
        }
        Ok(usize::from(self.first) + k)
    }
}

impl<'a, S: Serializer> Serializer for Window<'a, S> {
    ghost items = { λ w. window (S.Serializer.items w.inner.now) w.first w.count };

    ghost short = { λ w. window_short (S.Serializer.items w.inner.now) (S.Serializer.short w.inner.now) w.first w.count };

    fn count(&self) -> usize {
        self.count as usize
    }

    fn size(&self, k: usize) -> Result<Option<usize>, Fault> {
        size_above(self.inner, self.number(k)?)
    }

    fn write(&self, k: usize, part: &mut [u8]) -> Result<IsNull, Fault> {
        write_above(self.inner, self.number(k)?, part)
    }
}
