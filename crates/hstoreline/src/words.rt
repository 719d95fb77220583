//! The entries that a request spells.
ghost use Rattle.std.specs.Prelude.{◌≡◌, IfOk};
ghost use Rattle.std.specs.Option.{option_map};
ghost use Rattle.hstoreline.specs.Hstores.{Entries, text_onto, entry_onto, with_entry, entries_in};

use hstore::entry::HstoreEntry;
use listing::list::{Words, read_list};
use std::alloc::{AllocError, Global};
use syntax::parse::{parse_bytes, split_at_first};
use texts::place::{Place, Pool, Span};

// Entries, and the house pool in which their texts lie one behind another.
#[derive(Drop)]
pub struct EntryList {
    pub house: Vec<u8>,
    pub entries: Vec<HstoreEntry>,
}

impl Words for EntryList {
    ghost Held = { Entries };

    ghost held = { λ l. (l.house.items, l.entries.items) };

    ghost with = { with_entry };

    fn take(&mut self, heap: Global, word: &[u8]) -> Result<bool, AllocError> {
        match parse_entry(heap, &mut self.house, word)? {
            Some(entry) => {
                self.entries.push(entry)?;
                Ok(true)
            }
            None => Ok(false),
        }
    }
}

// The entries that a list spells, none where it is no list of entries.
pub fn parse_entries(heap: Global, word: &[u8]) -> Result<Option<EntryList>, AllocError>
    ensures { IfOk result (λ o. option_map (λ l. (l.house.items, l.entries.items)) o ≡ entries_in word.now) }
{
    let mut list = EntryList {
        house: Vec::new(heap),
        entries: Vec::new(heap),
    };
    Ok(read_list(heap, word, &mut list)?.then_some(list))
}

// The entry that KEY=VALUE spells; the key goes to the pool before the value.
fn parse_entry(
    heap: Global,
    house: &mut Vec<u8>,
    word: &[u8],
) -> Result<Option<HstoreEntry>, AllocError>
    ensures { IfOk result (λ o. option_map (λ e. (house.new.items, e)) o ≡ entry_onto house.old.items word.now) }
{
    let Some((key, value)) = split_at_first(word, b'=') else {
        return Ok(None);
    };
    let Some(key) = parse_text(heap, house, key)? else {
        return Ok(None);
    };
    let Some(value) = parse_text(heap, house, value)? else {
        return Ok(None);
    };
    Ok(Some(HstoreEntry { key, value }))
}

// The place of the text that a word spells, once it lies at the end of the pool; NULL has none.
fn parse_text(heap: Global, house: &mut Vec<u8>, word: &[u8]) -> Result<Option<Place>, AllocError>
    ensures { IfOk result (λ o. option_map (λ p. (house.new.items, p)) o ≡ text_onto house.old.items word.now) }
{
    if let b"NULL" = word {
        return Ok(Some(None));
    }
    let Some(text) = parse_bytes(heap, word)? else {
        return Ok(None);
    };
    let start = house.len();
    house.extend_from_slice(&text)?;
    Ok(Some(Some(Span {
        pool: Pool::House,
        start,
        length: text.len(),
    })))
}
