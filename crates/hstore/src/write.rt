//! Writing an hstore.
ghost use Rattle.std.specs.Prelude.{◌≡◌, ◌+◌, ◌≤◌, length, Ok};
ghost use Rattle.std.specs.List.{flat_map, AllByRecursion};
ghost use Rattle.texts.specs.Places.{pool_pair};
ghost use Rattle.wire.specs.Bytes.{put};
ghost use Rattle.wire.specs.Encoding.{told, laid, room_for};
ghost use Rattle.wire.specs.Items.{nullable};
ghost use Rattle.hstore.specs.Encoding.{Named, EntryNamed, counted, entry_size, entries_size, entry_text, entry_texts, hstore_encoding, keys_there, place_value, places_layout};
ghost use Rattle.hstore.specs.Laws.{WrittenBack, Distinct};

use crate::entry::HstoreEntry;
use fault::{Fault, Rule};
use texts::place::Place;
use texts::pools::Pools;
use wire::word::Word;
use wire::write::{from_usize, put_bytes};

// Writes the entries to the start of the part, in their order, and answers the number of bytes. An
// absent key is refused first, then the first text that is none; all is tested before a byte is
// written.
pub fn hstore_to_sql(
    pools: Pools<'_>,
    entries: &[HstoreEntry],
    part: &mut [u8],
) -> Result<usize, Fault>
    ensures answer { result ≡ told (room_for (length part.old) (hstore_encoding (pool_pair pools.entry) entries.now)) }
    ensures after { part.new ≡ laid (room_for (length part.old) (hstore_encoding (pool_pair pools.entry) entries.now)) part.old }
    ensures written_back { WrittenBack (pool_pair pools.entry) entries.now }
    ensures distinct { Distinct (pool_pair pools.entry) entries.now }
{
    encode(pools, entries, part)
}

// The number of bytes that `hstore_to_sql` writes, as far as a usize counts.
pub fn hstore_size(pools: Pools<'_>, entries: &[HstoreEntry]) -> Result<usize, Fault>
    ensures { result ≡ counted (hstore_encoding (pool_pair pools.entry) entries.now) }
{
    test_keys(entries)?;
    let bytes = measure(pools, entries)?;
    from_usize(entries.len(), 0)?;
    Ok(bytes.saturating_add(4))
}

// Measures, tests and then writes.
fn encode(pools: Pools<'_>, entries: &[HstoreEntry], part: &mut [u8]) -> Result<usize, Fault>
    ensures answer { result ≡ told (room_for (length part.old) (hstore_encoding (pool_pair pools.entry) entries.now)) }
    ensures after { part.new ≡ laid (room_for (length part.old) (hstore_encoding (pool_pair pools.entry) entries.now)) part.old }
{
    test_keys(entries)?;
    let bytes = measure(pools, entries)?;
    let count = from_usize(entries.len(), 0)?;
    if part.len() < 4 || part.len() - 4 < bytes {
        return Err(Fault::new(Rule::NoRoom, 0));
    }
    i32::put(part, 0, count)?;
    write_entries(pools, entries, part)
}

// Refuses the first absent key with rule 17 at its entry.
fn test_keys(entries: &[HstoreEntry]) -> Result<(), Fault>
    ensures { result ≡ keys_there 0 entries.now }
{
    for (k, entry) in entries.iter().enumerate() {
        if let None = entry.key {
            return Err(Fault::new(Rule::AbsentKey, k));
        }
    }
    Ok(())
}

// The bytes of all entries, as far as a usize counts; the texts are checked in order.
fn measure(pools: Pools<'_>, entries: &[HstoreEntry]) -> Result<usize, Fault>
    ensures { result ≡ entries_size (entry_texts (pool_pair pools.entry) 0 entries.now) }
{
    let mut bytes: usize = 0;
    for (k, entry) in entries.iter().enumerate() {
        bytes = bytes.saturating_add(measure_entry(pools, *entry, k)?);
    }
    Ok(bytes)
}

// The bytes of entry k with its length words, key before value.
fn measure_entry(pools: Pools<'_>, entry: HstoreEntry, k: usize) -> Result<usize, Fault>
    ensures { result ≡ entry_size (entry_text (pool_pair pools.entry) k entry) }
{
    let Some(key) = pools.text(entry.key, k)? else {
        return Err(Fault::new(Rule::AbsentKey, k));
    };
    match pools.text(entry.value, k)? {
        Some(value) => Ok(8 + key.len() + value.len()),
        None => Ok(8 + key.len()),
    }
}

// Writes every entry behind the count, and answers where they end.
fn write_entries(pools: Pools<'_>, entries: &[HstoreEntry], part: &mut [u8]) -> Result<usize, Fault>
    requires texts { AllByRecursion (EntryNamed (pool_pair pools)) entries.now }
    requires room { 4 + length (flat_map (places_layout (pool_pair pools)) entries.now) ≤ length part.old }
    ensures answer { result ≡ Ok (4 + length (flat_map (places_layout (pool_pair pools.entry)) entries.now)) }
    ensures after { part.new ≡ put 4 (flat_map (places_layout (pool_pair pools.entry)) entries.now) part.old }
{
    let mut at = 4;
    for entry in entries {
        at = put_text(pools, entry.key, part, at)?;
        at = put_text(pools, entry.value, part, at)?;
    }
    Ok(at)
}

// Writes the text at a place behind its length word, and answers the place behind it. The text was
// checked before.
fn put_text(pools: Pools<'_>, place: Place, part: &mut [u8], at: usize) -> Result<usize, Fault>
    requires text { Named (pool_pair pools) place }
    requires room { at + length (nullable (place_value (pool_pair pools) place)) ≤ length part.old }
    ensures answer { result ≡ Ok (at + length (nullable (place_value (pool_pair pools.entry) place))) }
    ensures after { part.new ≡ put at (nullable (place_value (pool_pair pools.entry) place)) part.old }
{
    let Some(span) = place else {
        return i32::put(part, at, -1);
    };
    let Some(text) = pools.lookup(span) else {
        return Err(Fault::new(Rule::OutsidePool, 0));
    };
    let at = i32::put(part, at, from_usize(text.len(), 0)?)?;
    put_bytes(part, at, text)
}
