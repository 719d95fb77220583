//! The nine validators at the bottom, as one.
ghost use Rattle.checkline.specs.Bottoms.{bottom_verdict, bottom_within};

use bottoms::plain::{Inet, Int4, Int8, Point, Text, Varbit};
use bottoms::rows::{Hstore, Path};
use fault::Fault;
use validator::validator::Validator;

// A format at the bottom of a pile.
#[derive(Clone, Copy)]
pub enum Bottom {
    Int4,
    Int8,
    Text,
    Point,
    Box,
    Path,
    Varbit,
    Hstore,
    Inet,
}

impl Validator for Bottom {
    ghost verdict = { bottom_verdict };

    ghost within = { bottom_within };

    fn validate(&self, bytes: &[u8]) -> Result<(), Fault> {
        match *self {
            Bottom::Int4 => Int4.validate(bytes),
            Bottom::Int8 => Int8.validate(bytes),
            Bottom::Text => Text.validate(bytes),
            Bottom::Point => Point.validate(bytes),
            Bottom::Box => bottoms::plain::Box.validate(bytes),
            Bottom::Path => Path.validate(bytes),
            Bottom::Varbit => Varbit.validate(bytes),
            Bottom::Hstore => Hstore.validate(bytes),
            Bottom::Inet => Inet.validate(bytes),
        }
    }
}
