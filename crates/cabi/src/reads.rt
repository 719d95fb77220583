//! Reading a value to the end. The answer is a sum over its parts, modulo 2^64, so that each is read.
ghost use Rattle.std.specs.Prelude.{◌≡◌, ℕ};
ghost use Rattle.array.specs.Recv.{array_recv, at_values};
ghost use Rattle.hstore.specs.Recv.{hstore_recv, read_entry};
ghost use Rattle.hstoreview.specs.Views.{seen_entry};
ghost use Rattle.path.specs.Recv.{path_recv, read_point, at_points};
ghost use Rattle.std.specs.Option.{option_map};
ghost use Rattle.wire.specs.Cursor.{read_nullable};
ghost use Rattle.wire.specs.Words.{then};
ghost use Rattle.wire.specs.Cursors.{state};
ghost use Rattle.cabi.specs.Sums.{number, add_value, add_entry, add_point, sum_to_end};

use crate::answer::to_number;
use arrayview::read::array_from_sql;
use double::point::Point;
use fault::Fault;
use hstoreview::read::hstore_from_sql;
use path::read::path_from_sql;
use wire::cursor::{Cursor, Part};

// The bytes of all elements of an array.
#[unsafe(no_mangle)]
pub extern "C" fn hemgyost_array_read(bytes: &[u8]) -> usize
    ensures { result ≡ number (then (array_recv bytes.now) (λ o. sum_to_end read_nullable add_value (at_values o) 0)) }
{
    to_number(read_array(bytes))
}

fn read_array(bytes: &[u8]) -> Result<usize, Fault>
    ensures { result ≡ then (array_recv bytes.now) (λ o. sum_to_end read_nullable add_value (at_values o) 0) }
{
    sum_parts(array_from_sql(bytes)?.values(), add_value)
}

// The sum over all parts of a cursor, each added in its way.
fn sum_parts<'a, P: Part<'a>, F: Fn(usize, P::Item) -> usize>(
    cursor: Cursor<'a, P>,
    add: F,
) -> Result<usize, Fault>
    requires { F.IsAlwaysCallable add }
    ensures { (adds : P.Form → ℕ → ℕ) → ((sum : ℕ) (item : P.Item) (r : ℕ) → F.post add sum item r → r ≡ adds (P.seen item) sum) → result ≡ sum_to_end P.reader adds (state cursor.entry) 0 }
{
    let mut parts = cursor;
    let mut sum: usize = 0;
    while let Some(part) = parts.next()? {
        sum = add(sum, part);
    }
    Ok(sum)
}

// NULL has no bytes.
fn add_value(sum: usize, value: Option<&[u8]>) -> usize
    ensures { result ≡ add_value (option_map (λ x. x.now) value.entry) sum }
{
    match value {
        Some(bytes) => sum.wrapping_add(bytes.len()),
        None => sum,
    }
}

// The bytes of all keys and values of an hstore.
#[unsafe(no_mangle)]
pub extern "C" fn hemgyost_hstore_read(bytes: &[u8]) -> usize
    ensures { result ≡ number (then (hstore_recv bytes.now) (λ s. sum_to_end read_entry add_entry s 0)) }
{
    to_number(read_hstore(bytes))
}

fn read_hstore(bytes: &[u8]) -> Result<usize, Fault>
    ensures { result ≡ then (hstore_recv bytes.now) (λ s. sum_to_end read_entry add_entry s 0) }
{
    sum_parts(hstore_from_sql(bytes)?, add_entry)
}

fn add_entry(sum: usize, entry: (&[u8], Option<&[u8]>)) -> usize
    ensures { result ≡ add_entry (seen_entry entry.entry) sum }
{
    let (key, value) = entry;
    add_value(add_value(sum, Some(key)), value)
}

// How many points of a path have the first coordinate below the second.
#[unsafe(no_mangle)]
pub extern "C" fn hemgyost_path_read(bytes: &[u8]) -> usize
    ensures { result ≡ number (then (path_recv bytes.now) (λ o. sum_to_end read_point add_point (at_points o) 0)) }
{
    to_number(read_path(bytes))
}

fn read_path(bytes: &[u8]) -> Result<usize, Fault>
    ensures { result ≡ then (path_recv bytes.now) (λ o. sum_to_end read_point add_point (at_points o) 0) }
{
    sum_parts(path_from_sql(bytes)?.points(), add_point)
}

fn add_point(sum: usize, point: Point) -> usize
    ensures { result ≡ add_point point sum }
{
    if point.x() < point.y() {
        sum.wrapping_add(1)
    } else {
        sum
    }
}
