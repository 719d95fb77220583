//! Writing points and boxes.
ghost use Rattle.std.specs.Prelude.{◌≡◌, ◌+◌, ◌≤◌, length, Ok};
ghost use Rattle.double.specs.Points.{point, corners};
ghost use Rattle.double.specs.Doubles.{double_word};
ghost use Rattle.wire.specs.Bytes.{put};
ghost use Rattle.wire.specs.Words.{be};
ghost use Rattle.wire.specs.Encoding.{told, laid, told_at, laid_at, room_for};
ghost use Rattle.geometry.specs.Laws.{PointDistinct, BoxDistinct};
ghost use Rattle.geometry.specs.Layout.{point_layout, points_layout, box_layout};
ghost use Rattle.geometry.specs.Recv.{point_recv, box_recv};

use double::point::Point;
use double::word::to_word;
use fault::{Fault, Rule};

// Writes a point to the start of the part, and answers the number of bytes. A NaN is written as the
// one NaN.
pub fn point_to_sql(x: f64, y: f64, part: &mut [u8]) -> Result<usize, Fault>
    ensures answer { result ≡ told (room_for (length part.old) (Ok (point_layout (point x y)))) }
    ensures after { part.new ≡ laid (room_for (length part.old) (Ok (point_layout (point x y)))) part.old }
    ensures written_back { point_recv (point_layout (point x y)) ≡ Ok (point x y) }
    ensures distinct { PointDistinct (point x y) }
{
    put_points(part, 0, &[Point::new(x, y)])
}

// Writes a box to the start of the part, the upper right corner first, and answers the number of
// bytes. The corners are not compared.
pub fn box_to_sql(x1: f64, y1: f64, x2: f64, y2: f64, part: &mut [u8]) -> Result<usize, Fault>
    ensures answer { result ≡ told (room_for (length part.old) (Ok (box_layout (corners (point x1 y1) (point x2 y2))))) }
    ensures after { part.new ≡ laid (room_for (length part.old) (Ok (box_layout (corners (point x1 y1) (point x2 y2))))) part.old }
    ensures written_back { box_recv (box_layout (corners (point x1 y1) (point x2 y2))) ≡ Ok (corners (point x1 y1) (point x2 y2)) }
    ensures distinct { BoxDistinct (corners (point x1 y1) (point x2 y2)) }
{
    put_points(part, 0, &[Point::new(x1, y1), Point::new(x2, y2)])
}

// Writes points from `at` on, and answers the place behind them; rule 11 at 0 where they do not fit.
pub fn put_points(part: &mut [u8], at: usize, points: &[Point]) -> Result<usize, Fault>
    ensures answer { result ≡ told_at at (points_layout points.now) part.old }
    ensures after { part.new ≡ laid_at at (points_layout points.now) part.old }
{
    if part.len() < at || part.len() - at < 16 * points.len() {
        return Err(Fault::new(Rule::NoRoom, 0));
    }
    let mut end = at;
    for point in points {
        end = put_point(part, end, *point);
    }
    Ok(end)
}

// Writes a point at `at`, where there is room, and answers the place behind it.
fn put_point(part: &mut [u8], at: usize, point: Point) -> usize
    requires { at + 16 ≤ length part.old }
    ensures answer { result ≡ at + 16 }
    ensures after { part.new ≡ put at (point_layout point) part.old }
{
    put_coordinate(part, at, point.x());
    put_coordinate(part, at + 8, point.y());
    at + 16
}

// Writes a coordinate at `at`, where there is room. That is not tested again, since a long path is mostly
// this.
fn put_coordinate(part: &mut [u8], at: usize, x: f64)
    requires { at + 8 ≤ length part.old }
    ensures { part.new ≡ put at (be 8 (double_word x)) part.old }
{
    part[at..at + 8].copy_from_slice(&to_word(x).to_be_bytes());
}
