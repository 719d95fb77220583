//! Writing a value. Points and entries are laid out first, as the encoders take them; they are then
//! written once, and `again` times more, so that a caller can tell the two apart.
ghost use Rattle.std.specs.Prelude.{◌≡◌, [], ◌∷◌, map, length, IfOk};
ghost use Rattle.array.specs.Encoding.{array_encoding};
ghost use Rattle.element.specs.Kinds.{int4};
ghost use Rattle.hstore.specs.Encoding.{hstore_encoding};
ghost use Rattle.path.specs.Layout.{path_encoding};
ghost use Rattle.serializer.specs.Runs.{run_items};
ghost use Rattle.texts.specs.Places.{pool_pair};
ghost use Rattle.wire.specs.Encoding.{Encoding, told, laid, room_for};
ghost use Rattle.cabi.specs.Sums.{number};
ghost use Rattle.cabi.specs.Writes.{Wrote, dimension_of, point_of, place_of, entry_of};

use crate::answer::to_number;
use array::dimension::ArrayDimension;
use array::write::array_to_sql;
use double::point::Point;
use fault::Fault;
use hstore::entry::HstoreEntry;
use hstore::write::hstore_to_sql;
use path::write::path_to_sql;
use serializer::elements::ElementList;
use std::alloc::{AllocError, Global};
use texts::place::{Place, Pool, Span};
use texts::pools::Pools;

// Two coordinates.
#[repr(C)]
#[derive(Clone, Copy)]
pub struct Pair {
    pub x: f64,
    pub y: f64,
}

// Where the key and the value of an entry lie in the pool.
#[repr(C)]
#[derive(Clone, Copy)]
pub struct Parts {
    pub key: usize,
    pub key_length: usize,
    pub value: usize,
    pub value_length: usize,
}

// Writes an int4 array of one dimension, from 1 on.
#[unsafe(no_mangle)]
pub extern "C" fn hemgyost_array_write(len: i32, words: &[i32], part: &mut [u8]) -> usize
    ensures answer { result ≡ number (told (room_for (length part.old) (array_encoding (dimension_of len ∷ []) 23 (run_items int4 words.now)))) }
    ensures after { part.new ≡ laid (room_for (length part.old) (array_encoding (dimension_of len ∷ []) 23 (run_items int4 words.now))) part.old }
{
    let dimensions = [ArrayDimension {
        len,
        lower_bound: 1,
    }];
    to_number(array_to_sql(&dimensions, 23, &ElementList::new(words), part))
}

// Writes a path.
#[unsafe(no_mangle)]
pub extern "C" fn hemgyost_path_write(
    heap: Global,
    closed: bool,
    pairs: &[Pair],
    again: usize,
    part: &mut [u8],
) -> usize
    ensures { Wrote (room_for (length part.old) (path_encoding closed (map point_of pairs.now))) part.old result part.new }
{
    match lay_points(heap, pairs) {
        Ok(points) => to_number(write_again(
            |part| path_to_sql(closed, &points, part),
            again,
            part,
        )),
        Err(_) => usize::MAX,
    }
}

fn lay_points(heap: Global, pairs: &[Pair]) -> Result<Vec<Point>, AllocError>
    ensures { IfOk result (λ v. v.items ≡ map point_of pairs.now) }
{
    // All the room is asked for at once, so that want of memory is told before any is filled.
    let mut points = Vec::with_capacity(heap, pairs.len())?;
    points.extend(pairs.iter().map(lay_point))?;
    Ok(points)
}

fn lay_point(pair: &Pair) -> Point
    ensures { result ≡ point_of pair.now }
{
    Point::new(pair.x, pair.y)
}

// Writes an hstore whose texts lie in one pool.
#[unsafe(no_mangle)]
pub extern "C" fn hemgyost_hstore_write(
    heap: Global,
    pool: &[u8],
    rows: &[Parts],
    again: usize,
    part: &mut [u8],
) -> usize
    ensures { Wrote (room_for (length part.old) (hstore_encoding (pool.now, []) (map entry_of rows.now))) part.old result part.new }
{
    match lay_entries(heap, rows) {
        Ok(entries) => {
            let pools = Pools::new(pool, &[]);
            to_number(write_again(|part| hstore_to_sql(pools, &entries, part), again, part))
        }
        Err(_) => usize::MAX,
    }
}

fn lay_entries(heap: Global, rows: &[Parts]) -> Result<Vec<HstoreEntry>, AllocError>
    ensures { IfOk result (λ v. v.items ≡ map entry_of rows.now) }
{
    let mut entries = Vec::with_capacity(heap, rows.len())?;
    entries.extend(rows.iter().map(lay_entry))?;
    Ok(entries)
}

fn lay_entry(row: &Parts) -> HstoreEntry
    ensures { result ≡ entry_of row.now }
{
    HstoreEntry {
        key: place(row.key, row.key_length),
        value: place(row.value, row.value_length),
    }
}

fn place(start: usize, length: usize) -> Place
    ensures { result ≡ place_of start length }
{
    Some(Span {
        pool: Pool::House,
        start,
        length,
    })
}

// One write, and `again` times more.
fn write_again<F: Fn(&mut [u8]) -> Result<usize, Fault>>(
    write: F,
    again: usize,
    part: &mut [u8],
) -> Result<usize, Fault>
    requires { F.IsAlwaysCallable write }
    ensures { (e : Encoding) → ((p : _) (r : _) (q : _) → F.post write p r q → (r ≡ told (room_for (length p.now) e)) × (q.now ≡ laid (room_for (length p.now) e) p.now)) → (result ≡ told (room_for (length part.old) e)) × (part.new ≡ laid (room_for (length part.old) e) part.old) }
{
    let mut size = write(part)?;
    for _ in 0..again {
        size = write(part)?;
    }
    Ok(size)
}
