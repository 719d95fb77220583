//! A table of rows.
ghost use Rattle.std.specs.Prelude.{◌≡◌, ◌≤◌, length};

// At most 64 rows, of which the first `used` stand: an array with its length beside it, since a layer
// has fixed memory and no heap.
#[derive(Drop)]
pub struct Table<R> {
    pub(crate) rows: [R; 64],
    pub(crate) used: usize,
    ghost full: { length rows ≡ 64 },
    ghost within: { used ≤ 64 },
}
