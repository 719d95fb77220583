//! Reading points and boxes.
ghost use Rattle.std.specs.Prelude.{◌≡◌};
ghost use Rattle.geometry.specs.Laws.{PointReads, BoxReads};
ghost use Rattle.geometry.specs.Recv.{point_at, point_recv, box_recv};

use double::point::{Box, Point};
use fault::Fault;
use wire::read::read_end;
use wire::word::Word;

// The point that the bytes are.
pub fn point_from_sql(buf: &[u8]) -> Result<Point, Fault>
    ensures answer { result ≡ point_recv buf.now }
    ensures reads { PointReads buf.now }
{
    read_point(buf)
}

// The box that the bytes are, its corners as they stand.
pub fn box_from_sql(buf: &[u8]) -> Result<Box, Fault>
    ensures answer { result ≡ box_recv buf.now }
    ensures reads { BoxReads buf.now }
{
    read_box(buf)
}

// Like a whole word in `scalar`, but a point is no word of a width.
fn read_point(buf: &[u8]) -> Result<Point, Fault>
    ensures { result ≡ point_recv buf.now }
{
    let point = read_point_at(buf, 0)?;
    read_end(buf, 16)?;
    Ok(point)
}

fn read_box(buf: &[u8]) -> Result<Box, Fault>
    ensures { result ≡ box_recv buf.now }
{
    let upper_right = read_point_at(buf, 0)?;
    let lower_left = read_point_at(buf, 16)?;
    read_end(buf, 32)?;
    Ok(Box::new(upper_right, lower_left))
}

// The point whose coordinates stand at `at`: rule 1 at the one that lacks bytes.
pub fn read_point_at(buf: &[u8], at: usize) -> Result<Point, Fault>
    ensures { result ≡ point_at buf.now at }
{
    let x = u64::read(buf, at)?;
    // The first word is there, so this sum does not overflow.
    let y = u64::read(buf, at + 8)?;
    Ok(Point::from_words(x, y))
}
