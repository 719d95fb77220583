//! Hstore values and paths.
ghost use Rattle.texts.specs.Places.{pool_pair};
ghost use Rattle.content.specs.Encoders.{hstore_content, path_content};

use double::point::Point;
use fault::Fault;
use hstore::entry::HstoreEntry;
use hstore::write::{hstore_size, hstore_to_sql};
use path::write::{path_size, path_to_sql};
use rows::encoded::Encoded;
use texts::pools::Pools;

// Entries by their places.
#[derive(Clone, Copy)]
pub struct HstoreContent<'a, 'b> {
    pub pools: Pools<'a>,
    pub entries: &'b [HstoreEntry],
}

impl<'a, 'b> Encoded for HstoreContent<'a, 'b> {
    ghost encoding = { λ h. hstore_content (pool_pair h.pools) h.entries.now };

    fn size(&self) -> Result<usize, Fault> {
        hstore_size(self.pools, self.entries)
    }

    fn write(&self, part: &mut [u8]) -> Result<usize, Fault> {
        hstore_to_sql(self.pools, self.entries, part)
    }
}

// A path.
#[derive(Clone, Copy)]
pub struct PathContent<'a> {
    pub closed: bool,
    pub points: &'a [Point],
}

impl<'a> Encoded for PathContent<'a> {
    ghost encoding = { λ p. path_content p.closed p.points.now };

    fn size(&self) -> Result<usize, Fault> {
        path_size(self.points)
    }

    fn write(&self, part: &mut [u8]) -> Result<usize, Fault> {
        path_to_sql(self.closed, self.points, part)
    }
}
