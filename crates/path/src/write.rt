//! Writing a path.
ghost use Rattle.std.specs.Prelude.{◌≡◌, Bool, length};
ghost use Rattle.wire.specs.Encoding.{told, laid, room_for};
ghost use Rattle.path.specs.Laws.{WrittenBack, Distinct};
ghost use Rattle.path.specs.Layout.{path_encoding};

use double::point::Point;
use fault::{Fault, Rule};
use geometry::write::put_points;
use wire::word::Word;
use wire::write::from_usize;

// Writes a path to the start of the part, and answers the number of bytes.
pub fn path_to_sql(closed: bool, points: &[Point], part: &mut [u8]) -> Result<usize, Fault>
    ensures answer { result ≡ told (room_for (length part.old) (path_encoding closed points.now)) }
    ensures after { part.new ≡ laid (room_for (length part.old) (path_encoding closed points.now)) part.old }
    ensures written_back { WrittenBack closed points.now }
    ensures distinct { Distinct closed points.now }
{
    encode(closed, points, part)
}

// The number of bytes that `path_to_sql` writes, closed or not.
pub fn path_size(points: &[Point]) -> Result<usize, Fault>
    ensures { (closed : Bool) → result ≡ told (path_encoding closed points.now) }
{
    from_usize(points.len(), 0)?;
    Ok(5 + 16 * points.len())
}

// Tests and then writes.
fn encode(closed: bool, points: &[Point], part: &mut [u8]) -> Result<usize, Fault>
    ensures answer { result ≡ told (room_for (length part.old) (path_encoding closed points.now)) }
    ensures after { part.new ≡ laid (room_for (length part.old) (path_encoding closed points.now)) part.old }
{
    let count = from_usize(points.len(), 0)?;
    if part.len() < 5 + 16 * points.len() {
        return Err(Fault::new(Rule::NoRoom, 0));
    }
    u8::put(part, 0, u8::from(closed))?;
    i32::put(part, 1, count)?;
    put_points(part, 5, points)
}
