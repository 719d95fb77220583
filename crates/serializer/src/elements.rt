//! A lent run of elements as a serializer.
ghost use Rattle.std.specs.Prelude.{◌≡◌};
ghost use Rattle.serializer.specs.Runs.{run_items, run_short};

use crate::serializer::Serializer;
use element::element::Element;
use fault::{Fault, Rule};
use wire::oid::IsNull;

// A run of elements of one kind.
#[derive_where(Clone, Copy)]
pub struct ElementList<'a, T> {
    run: &'a [T],
}

impl<'a, T> ElementList<'a, T> {
    pub fn new(run: &'a [T]) -> ElementList<'a, T>
        ensures { result.run.now ≡ run.now }
    {
        ElementList { run }
    }
}

impl<'a, T: Element> Serializer for ElementList<'a, T> {
    ghost items = { λ l. run_items T.Element.value l.run.now };

    ghost short = { λ l. run_short T.Element.value T.Element.small l.run.now };

    fn count(&self) -> usize {
        self.run.len()
    }

    fn size(&self, k: usize) -> Result<Option<usize>, Fault> {
        if k >= self.run.len() {
            return Err(Fault::new(Rule::Missing, k));
        }
        Ok(self.run[k].size())
    }

    fn write(&self, k: usize, part: &mut [u8]) -> Result<IsNull, Fault> {
        if k >= self.run.len() {
            return Err(Fault::new(Rule::Missing, k));
        }
        self.run[k].write(part)
    }
}
