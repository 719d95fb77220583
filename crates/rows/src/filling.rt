//! Filling a table and reading it.
ghost use Rattle.std.specs.Prelude.{◌≡◌, [], length};
ghost use Rattle.rows.specs.Tables.{rows_of, row_at, told_added, added};

use crate::table::Table;
use fault::{Fault, Rule};

impl<R: Copy> Table<R> {
    // A table with no row; `blank` fills its memory.
    pub fn new(blank: R) -> Table<R>
        ensures { rows_of result ≡ [] }
    {
        Table {
            rows: [blank; 64],
            used: 0,
        }
    }

    // Adds a row behind the others. Where 64 stand, rule 16 at 64, and nothing changes.
    pub fn add(&mut self, row: R) -> Result<(), Fault>
        ensures answer { result ≡ told_added (rows_of self.old) }
        ensures after { rows_of self.new ≡ added (rows_of self.old) row }
    {
        if self.used >= 64 {
            return Err(Fault::new(Rule::TableFull, 64));
        }
        let at = self.used;
        self.rows[at] = row;
        self.used = at + 1;
        Ok(())
    }

    // How many rows stand.
    pub fn len(&self) -> usize
        ensures { result ≡ length (rows_of self.now) }
    {
        self.used
    }

    // Row k: rule 10 at k where there is none.
    pub fn row(&self, k: usize) -> Result<R, Fault>
        ensures { result ≡ row_at (rows_of self.now) k }
    {
        let rows = &self.rows[..self.used];
        rows.get(k).copied().ok_or(Fault::new(Rule::Missing, k))
    }
}
