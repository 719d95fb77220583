//! Items in a row.
ghost use Rattle.std.specs.Prelude.{◌≡◌, map};
ghost use Rattle.serializer.specs.Lists.{item_at};
ghost use Rattle.wire.specs.Words.{seen};
ghost use Rattle.items.specs.Slots.{slot_item, slots_short};

use crate::slot::Slot;
use fault::{Fault, Rule};
use serializer::serializer::Serializer;
use wire::oid::IsNull;
use wire::write::put_bytes;

// The items of a request, in their order.
#[derive(Drop)]
pub struct ItemList {
    pub slots: Vec<Slot>,
}

impl ItemList {
    // Item k: rule 10 at k where there is no such item, else what is spelled there.
    fn item(&self, k: usize) -> Result<Option<&[u8]>, Fault>
        ensures { seen result ≡ item_at (map slot_item self.now.slots.items) k }
    {
        payload(self.slots.get(k).ok_or(Fault::new(Rule::Missing, k))?)
    }
}

// What is spelled, where a length word holds the length of its payload.
fn payload(slot: &Slot) -> Result<Option<&[u8]>, Fault>
    ensures { seen result ≡ slot_item slot.now }
{
    match slot {
        Ok(Some(bytes)) if bytes.len() > 2147483647 => Err(Fault::new(Rule::TooGreat, 0)),
        Ok(Some(bytes)) => Ok(Some(bytes)),
        Ok(None) => Ok(None),
        Err(fault) => Err(*fault),
    }
}

impl Serializer for ItemList {
    ghost items = { λ l. map slot_item l.slots.items };

    ghost short = { λ l. slots_short l.slots.items };

    fn count(&self) -> usize {
        self.slots.len()
    }

    fn size(&self, k: usize) -> Result<Option<usize>, Fault> {
        Ok(self.item(k)?.map(|bytes| bytes.len()))
    }

    fn write(&self, k: usize, part: &mut [u8]) -> Result<IsNull, Fault> {
        match self.item(k)? {
            Some(bytes) => {
                put_bytes(part, 0, bytes)?;
                Ok(IsNull::No)
            }
            None => Ok(IsNull::Yes),
        }
    }
}
