//! The points of a path that is read.
ghost use Rattle.double.specs.declared.point.Point.{Point};
ghost use Rattle.path.specs.Recv.{read_point};

use double::point::Point;
use fault::Fault;
use geometry::read::read_point_at;
use wire::cursor::{Cursor, Part};

// Points, of sixteen bytes each.
pub struct Points;

impl<'a> Part<'a> for Points {
    type Item = Point;

    ghost Form = { Point };

    ghost seen = { λ p. p };

    ghost reader = { read_point };

    fn read(buf: &'a [u8], at: usize) -> Result<(Point, usize), Fault> {
        Ok((read_point_at(buf, at)?, 16))
    }
}

// The cursor over the points.
pub type PathPoints<'a> = Cursor<'a, Points>;
