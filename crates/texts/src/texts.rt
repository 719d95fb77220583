//! A list of places as a serializer.
ghost use Rattle.std.specs.Prelude.{◌≡◌};
ghost use Rattle.serializer.specs.Lists.{item_at};
ghost use Rattle.wire.specs.Words.{seen};
ghost use Rattle.texts.specs.Places.{pool_pair, place_items, places_short};

use crate::place::Place;
use crate::pools::Pools;
use fault::{Fault, Rule};
use serializer::serializer::Serializer;
use wire::oid::IsNull;
use wire::write::put_bytes;

// Texts of two pools, by a list of places.
#[derive(Clone, Copy)]
pub struct Texts<'a> {
    pools: Pools<'a>,
    places: &'a [Place],
}

impl<'a> Texts<'a> {
    pub fn new(pools: Pools<'a>, places: &'a [Place]) -> Texts<'a>
        ensures { (pool_pair result.pools ≡ pool_pair pools.entry) × (result.places.now ≡ places.now) }
    {
        Texts { pools, places }
    }

    // Item k: rule 10 at k where there is no such place, else the text at it.
    fn item(&self, k: usize) -> Result<Option<&'a [u8]>, Fault>
        ensures { seen result ≡ item_at (place_items (pool_pair self.now.pools) 0 self.now.places.now) k }
    {
        if k >= self.places.len() {
            return Err(Fault::new(Rule::Missing, k));
        }
        self.pools.text(self.places[k], k)
    }
}

impl<'a> Serializer for Texts<'a> {
    ghost items = { λ t. place_items (pool_pair t.pools) 0 t.places.now };

    ghost short = { λ t. places_short (pool_pair t.pools) t.places.now };

    fn count(&self) -> usize {
        self.places.len()
    }

    fn size(&self, k: usize) -> Result<Option<usize>, Fault> {
        match self.item(k)? {
            Some(text) => Ok(Some(text.len())),
            None => Ok(None),
        }
    }

    fn write(&self, k: usize, part: &mut [u8]) -> Result<IsNull, Fault> {
        match self.item(k)? {
            Some(text) => {
                put_bytes(part, 0, text)?;
                Ok(IsNull::No)
            }
            None => Ok(IsNull::Yes),
        }
    }
}
