//! The requests for points and boxes, each by the rest of its line.
ghost use Rattle.std.specs.Prelude.{◌≡◌, IfOk, Ok};
ghost use Rattle.answers.specs.Plain.{answered};
ghost use Rattle.geometry.specs.Recv.{point_recv, box_recv};
ghost use Rattle.syntax.specs.Parsed.{bytes_in};
ghost use Rattle.shapeline.specs.Shapes.{point_answer, point_written, box_answer, box_in, box_written};

use crate::words::{parse_double, parse_point, push_point};
use answers::plain::{bad_request, refusal};
use answers::written::{blank_part, print_written};
use double::point::{Box, Point};
use geometry::read;
use lines::argument::{Reading, on_bytes};
use std::alloc::{AllocError, Global};
use syntax::parse::split_at_first;

// point_from_sql xB
pub fn point_from_sql(heap: Global, argument: &[u8]) -> Result<Vec<u8>, AllocError>
    ensures { IfOk result (λ v. v.items ≡ answered (λ bs. point_answer (point_recv bs)) (bytes_in argument.now)) }
{
    on_bytes::<ReadPoint>(heap, argument)
}

// A point.
struct ReadPoint;

impl Reading for ReadPoint {
    ghost says = { λ bs. point_answer (point_recv bs) };

    fn answer(heap: Global, bytes: &[u8]) -> Result<Vec<u8>, AllocError> {
        match read::point_from_sql(bytes) {
            Ok(point) => print_point(heap, point),
            Err(fault) => refusal(heap, fault),
        }
    }
}

fn print_point(heap: Global, point: Point) -> Result<Vec<u8>, AllocError>
    ensures { IfOk result (λ v. v.items ≡ point_answer (Ok point)) }
{
    let mut out = Vec::from_slice(heap, b"point ")?;
    push_point(&mut out, point, b',')?;
    Ok(out)
}

// point_to_sql W,W
pub fn point_to_sql(heap: Global, argument: &[u8]) -> Result<Vec<u8>, AllocError>
    ensures { IfOk result (λ v. v.items ≡ point_written argument.now) }
{
    let Some(point) = parse_point(argument, b',') else {
        return bad_request(heap);
    };
    let mut part = blank_part(heap, argument)?;
    let written = geometry::write::point_to_sql(point.x(), point.y(), &mut part);
    print_written(heap, written, &part)
}

// box_from_sql xB
pub fn box_from_sql(heap: Global, argument: &[u8]) -> Result<Vec<u8>, AllocError>
    ensures { IfOk result (λ v. v.items ≡ answered (λ bs. box_answer (box_recv bs)) (bytes_in argument.now)) }
{
    on_bytes::<ReadBox>(heap, argument)
}

// A box.
struct ReadBox;

impl Reading for ReadBox {
    ghost says = { λ bs. box_answer (box_recv bs) };

    fn answer(heap: Global, bytes: &[u8]) -> Result<Vec<u8>, AllocError> {
        match read::box_from_sql(bytes) {
            Ok(corners) => print_box(heap, corners),
            Err(fault) => refusal(heap, fault),
        }
    }
}

fn print_box(heap: Global, corners: Box) -> Result<Vec<u8>, AllocError>
    ensures { IfOk result (λ v. v.items ≡ box_answer (Ok corners)) }
{
    let mut out = Vec::from_slice(heap, b"box ")?;
    push_point(&mut out, corners.upper_right(), b',')?;
    out.push(b',')?;
    push_point(&mut out, corners.lower_left(), b',')?;
    Ok(out)
}

// box_to_sql W,W,W,W
pub fn box_to_sql(heap: Global, argument: &[u8]) -> Result<Vec<u8>, AllocError>
    ensures { IfOk result (λ v. v.items ≡ box_written argument.now) }
{
    let Some(corners) = parse_box(argument) else {
        return bad_request(heap);
    };
    let mut part = blank_part(heap, argument)?;
    let (a, b) = (corners.upper_right(), corners.lower_left());
    let written = geometry::write::box_to_sql(a.x(), a.y(), b.x(), b.y(), &mut part);
    print_written(heap, written, &part)
}

// The box that four words make.
fn parse_box(word: &[u8]) -> Option<Box>
    ensures { result ≡ box_in word.now }
{
    let (x, behind) = split_at_first(word, b',')?;
    let (y, lower_left) = split_at_first(behind, b',')?;
    let upper_right = Point::new(parse_double(x)?, parse_double(y)?);
    Some(Box::new(upper_right, parse_point(lower_left, b',')?))
}
