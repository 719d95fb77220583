//! The two pools.
ghost use Rattle.std.specs.Prelude.{◌≡◌};
ghost use Rattle.wire.specs.Words.{seen};
ghost use Rattle.texts.specs.Places.{pool_pair, pool_bytes, seen_part, looked_up, place_item};

use crate::place::{Place, Pool, Span};
use fault::{Fault, Rule};
use text::text_from_sql;

// The pools that places name.
#[derive(Clone, Copy)]
pub struct Pools<'a> {
    house: &'a [u8],
    supplier: &'a [u8],
}

impl<'a> Pools<'a> {
    pub fn new(house: &'a [u8], supplier: &'a [u8]) -> Pools<'a>
        ensures { pool_pair result ≡ (house.now, supplier.now) }
    {
        Pools { house, supplier }
    }

    // The bytes of a pool.
    fn pool(&self, pool: Pool) -> &'a [u8]
        ensures { result.now ≡ pool_bytes (pool_pair self.now) pool }
    {
        match pool {
            Pool::House => self.house,
            Pool::Supplier => self.supplier,
        }
    }

    // The part of its pool that a span names, none where it passes the pool.
    pub fn lookup(&self, span: Span) -> Option<&'a [u8]>
        ensures { seen_part result ≡ looked_up (pool_pair self.now) span }
    {
        let Span {
            pool,
            start,
            length,
        } = span;
        let bytes = self.pool(pool);
        if start > bytes.len() || bytes.len() - start < length {
            return None;
        }
        Some(&bytes[start..start + length])
    }

    // The text at a place, as item `k`: NULL where it is absent, rule 15 where the place passes its
    // pool, 6 where it is no UTF-8, 12 where it is longer than 2,147,483,647 bytes, each at `k`.
    pub fn text(&self, place: Place, k: usize) -> Result<Option<&'a [u8]>, Fault>
        ensures { seen result ≡ place_item (pool_pair self.now) k place }
    {
        let Some(span) = place else {
            return Ok(None);
        };
        let Some(part) = self.lookup(span) else {
            return Err(Fault::new(Rule::OutsidePool, k));
        };
        let Ok(text) = text_from_sql(part) else {
            return Err(Fault::new(Rule::NotText, k));
        };
        if text.len() > 2147483647 {
            return Err(Fault::new(Rule::TooGreat, k));
        }
        Ok(Some(text))
    }
}
