//! The points of a path as words.
ghost use Rattle.answers.proofs.Steps.{shows};
ghost use Rattle.answers.specs.Parts.{texts_of};
ghost use Rattle.path.specs.Recv.{read_point};
ghost use Rattle.shapeline.specs.Words.{point_text, point_in};

use answers::parts::{CursorTexts, PartText};
use double::point::Point;
use listing::list::Notation;
use path::points::Points;
use shapeline::words::{parse_point, push_point};
use std::alloc::AllocError;

// A point as W:W.
pub struct PointText;

impl<'a> PartText<'a, Points> for PointText {
    ghost text = { point_text 58 };

    ghost reads = { texts_of (point_text 58) read_point };

    ghost shows = { shows (point_text 58) read_point (λ p. p) };

    fn push(out: &mut Vec<u8>, point: Point) -> Result<(), AllocError> {
        push_point(out, point, b':')
    }
}

// The points that a cursor gives, as words.
pub type PointTexts<'a> = CursorTexts<'a, Points, PointText>;

// W:W
pub struct PointNotation;

impl Notation for PointNotation {
    type Item = Point;

    ghost reads = { point_in 58 };

    fn parse(word: &[u8]) -> Option<Point> {
        parse_point(word, b':')
    }
}
