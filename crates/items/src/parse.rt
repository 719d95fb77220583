//! Reading the items that a request spells.
ghost use Rattle.std.specs.Prelude.{◌≡◌, List, map, IfOk};
ghost use Rattle.std.specs.Option.{option_map};
ghost use Rattle.listing.specs.Lists.{list_in, with_read};
ghost use Rattle.wire.specs.Items.{Item};
ghost use Rattle.items.specs.Slots.{slot_item};
ghost use Rattle.items.specs.Spelled.{fault_in, item_in};

use crate::list::ItemList;
use crate::slot::Slot;
use fault::{Fault, Foreign, Rule};
use listing::list::{Words, read_list};
use std::alloc::{AllocError, Global};
use syntax::parse::{parse_bytes, parse_number, split_at_first};

impl Words for ItemList {
    ghost Held = { List Item };

    ghost held = { λ l. map slot_item l.slots.items };

    ghost with = { with_read item_in };

    fn take(&mut self, heap: Global, word: &[u8]) -> Result<bool, AllocError> {
        match parse_slot(heap, word)? {
            Some(slot) => {
                self.slots.push(slot)?;
                Ok(true)
            }
            None => Ok(false),
        }
    }
}

// The items that a list spells, none where it is no list of items.
pub fn parse_items(heap: Global, word: &[u8]) -> Result<Option<ItemList>, AllocError>
    ensures { IfOk result (λ o. option_map (λ l. map slot_item l.slots.items) o ≡ list_in item_in word.now) }
{
    let mut items = ItemList {
        slots: Vec::new(heap),
    };
    Ok(read_list(heap, word, &mut items)?.then_some(items))
}

// The item that a word spells: NULL, a byte string, or ! and a fault.
pub fn parse_slot(heap: Global, word: &[u8]) -> Result<Option<Slot>, AllocError>
    ensures { IfOk result (λ o. option_map slot_item o ≡ item_in word.now) }
{
    match word {
        b"NULL" => Ok(Some(Ok(None))),
        [b'!', text @ ..] => Ok(parse_fault(text).map(Err)),
        _ => Ok(parse_bytes(heap, word)?.map(|bytes| Ok(Some(bytes)))),
    }
}

// A fault of another implementation: NUMBER@PLACE/LEVEL.
fn parse_fault(text: &[u8]) -> Option<Fault>
    ensures { result ≡ fault_in text.now }
{
    let (number, behind) = split_at_first(text, b'@')?;
    let (place, level) = split_at_first(behind, b'/')?;
    let foreign = Foreign::new(parse_number(number, 255)? as u8)?;
    Some(Fault {
        rule: Rule::Other(foreign),
        place: parse_number(place, u64::MAX)? as usize,
        level: parse_number(level, 255)? as u8,
    })
}
