//! Points and boxes.
ghost use Rattle.std.specs.Prelude.{◌≡◌};
ghost use Rattle.double.specs.Doubles.{double_word, word_double};
ghost use Rattle.double.specs.Points.{point, corners, same_point, same_box, SamePoint, SameBox};
ghost use Rattle.std.specs.Cmp.Rules.{comparing};
ghost use Rattle.std.proofs.Common.{rules};

use crate::word::{from_word, to_word};

// A point of the plane.
#[derive(Clone, Copy)]
pub struct Point {
    x: f64,
    y: f64,
}

impl Point {
    pub fn new(x: f64, y: f64) -> Point
        ensures { result ≡ point x y }
    {
        Point { x, y }
    }

    // The point of two words, as they stand in a value.
    pub fn from_words(x: u64, y: u64) -> Point
        ensures { result ≡ point (word_double x) (word_double y) }
    {
        Point::new(from_word(x), from_word(y))
    }

    pub fn x(&self) -> f64
        ensures { result ≡ self.now.x }
    {
        self.x
    }

    pub fn y(&self) -> f64
        ensures { result ≡ self.now.y }
    {
        self.y
    }
}

// Coordinates are equal when their words are: 0.0 is not -0.0, and NaN is NaN. A derived equality would
// be that of doubles.
impl PartialEq for Point {
    ghost eq = { same_point };

    ghost laws = { Prim.search (comparing, rules) };

    fn eq(&self, other: &Point) -> bool
        ensures gives { result ≡ same_point self.now other.now }
        ensures words { SamePoint self.now other.now result }
    {
        to_word(self.x) == to_word(other.x) && to_word(self.y) == to_word(other.y)
    }
}

// A box by two of its corners, as they were given.
#[derive(Clone, Copy)]
pub struct Box {
    upper_right: Point,
    lower_left: Point,
}

impl Box {
    pub fn new(upper_right: Point, lower_left: Point) -> Box
        ensures { result ≡ corners upper_right lower_left }
    {
        Box {
            upper_right,
            lower_left,
        }
    }

    pub fn upper_right(&self) -> Point
        ensures { result ≡ self.now.upper_right }
    {
        self.upper_right
    }

    pub fn lower_left(&self) -> Point
        ensures { result ≡ self.now.lower_left }
    {
        self.lower_left
    }
}

// By hand, since a derived equality has no clause that names the words.
impl PartialEq for Box {
    ghost eq = { same_box };

    ghost laws = { Prim.search (comparing, rules) };

    fn eq(&self, other: &Box) -> bool
        ensures gives { result ≡ same_box self.now other.now }
        ensures words { SameBox self.now other.now result }
    {
        let upper = self.upper_right == other.upper_right;
        upper && self.lower_left == other.lower_left
    }
}
