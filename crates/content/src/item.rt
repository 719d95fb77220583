//! NULL, and one item of a serializer.
ghost use Rattle.std.specs.Prelude.{[], ◌∷◌, None, Ok};
ghost use Rattle.serializer.specs.Lists.{item_at};
ghost use Rattle.rows.specs.Windows.{above, above_short};
ghost use Rattle.content.specs.Encoders.{only_short};

use crate::one_item::{Content, Only};
use fault::Fault;
use rows::above::{size_above, write_above};
use serializer::serializer::Serializer;
use wire::oid::IsNull;

// NULL.
#[derive(Clone, Copy)]
pub struct Nothing;

impl Content for Nothing {
    ghost item = { λ _. Ok None };

    ghost short = { λ _. tt };

    fn size(&self) -> Result<Option<usize>, Fault> {
        Ok(None)
    }

    fn write(&self, _part: &mut [u8]) -> Result<IsNull, Fault> {
        Ok(IsNull::Yes)
    }
}

// Alone it is a serializer of its one item.
impl Serializer for Nothing {
    ghost items = { λ _. Ok None ∷ [] };

    ghost short = { λ _. only_short (Ok None) tt };

    fn count(&self) -> usize {
        Only { content: self }.count()
    }

    fn size(&self, k: usize) -> Result<Option<usize>, Fault> {
        Only { content: self }.size(k)
    }

    fn write(&self, k: usize, part: &mut [u8]) -> Result<IsNull, Fault> {
        Only { content: self }.write(k, part)
    }
}

// An item of a serializer; its fault is one level further down.
#[derive_where(Clone, Copy)]
pub struct Chosen<'a, S> {
    pub inner: &'a S,
    pub number: usize,
}

impl<'a, S: Serializer> Content for Chosen<'a, S> {
    ghost item = { λ c. above (item_at (S.Serializer.items c.inner.now) c.number) };

    ghost short = { λ c. above_short (item_at (S.Serializer.items c.inner.now) c.number) (S.Serializer.short c.inner.now c.number) };

    fn size(&self) -> Result<Option<usize>, Fault> {
        size_above(self.inner, self.number)
    }

    fn write(&self, part: &mut [u8]) -> Result<IsNull, Fault> {
        write_above(self.inner, self.number, part)
    }
}

// Alone it is a serializer of its one item.
impl<'a, S: Serializer> Serializer for Chosen<'a, S> {
    ghost items = { λ c. above (item_at (S.Serializer.items c.inner.now) c.number) ∷ [] };

    ghost short = { λ c. only_short (above (item_at (S.Serializer.items c.inner.now) c.number)) (above_short (item_at (S.Serializer.items c.inner.now) c.number) (S.Serializer.short c.inner.now c.number)) };

    fn count(&self) -> usize {
        Only { content: self }.count()
    }

    fn size(&self, k: usize) -> Result<Option<usize>, Fault> {
        Only { content: self }.size(k)
    }

    fn write(&self, k: usize, part: &mut [u8]) -> Result<IsNull, Fault> {
        Only { content: self }.write(k, part)
    }
}
