//! The kinds of elements.
ghost use Rattle.std.specs.Prelude.{◌≡◌};
ghost use Rattle.double.specs.Doubles.{word_double};
ghost use Rattle.element.specs.Kinds.{int4, int8, float8, point16, optional, word_of, words_of, int4_small, int8_small, float8_small, point16_small, optional_small};

use crate::element::Element;
use double::point::Point;
use double::word::{from_word, to_word};
use fault::{Fault, Rule};
use wire::oid::IsNull;
use wire::word::Word;

// A double as an element, by its word of eight bytes.
#[derive(Clone, Copy, PartialEq, Eq, Debug)]
pub struct DoubleWord {
    word: u64,
}

impl From<f64> for DoubleWord {
    ghost from_gives = { λ x w. w ≡ word_of x };

    fn from(x: f64) -> DoubleWord {
        DoubleWord { word: to_word(x) }
    }
}

impl From<DoubleWord> for f64 {
    ghost from_gives = { λ w x. x ≡ word_double w.word };

    fn from(double: DoubleWord) -> f64 {
        from_word(double.word)
    }
}

// A point as an element, by the words of its coordinates.
#[derive(Clone, Copy, PartialEq, Eq, Debug)]
pub struct PointWords {
    x: u64,
    y: u64,
}

impl From<Point> for PointWords {
    ghost from_gives = { λ p w. w ≡ words_of p };

    fn from(point: Point) -> PointWords {
        PointWords {
            x: to_word(point.x()),
            y: to_word(point.y()),
        }
    }
}

// The kinds of one word stay apart: each is its size and one call of `put`.
impl Element for i32 {
    ghost value = { int4 };

    ghost small = { int4_small };

    fn size(&self) -> Option<usize> {
        Some(4)
    }

    fn write(&self, part: &mut [u8]) -> Result<IsNull, Fault> {
        i32::put(part, 0, *self)?;
        Ok(IsNull::No)
    }
}

impl Element for i64 {
    ghost value = { int8 };

    ghost small = { int8_small };

    fn size(&self) -> Option<usize> {
        Some(8)
    }

    fn write(&self, part: &mut [u8]) -> Result<IsNull, Fault> {
        i64::put(part, 0, *self)?;
        Ok(IsNull::No)
    }
}

impl Element for DoubleWord {
    ghost value = { float8 };

    ghost small = { float8_small };

    fn size(&self) -> Option<usize> {
        Some(8)
    }

    fn write(&self, part: &mut [u8]) -> Result<IsNull, Fault> {
        u64::put(part, 0, self.word)?;
        Ok(IsNull::No)
    }
}

impl Element for PointWords {
    ghost value = { point16 };

    ghost small = { point16_small };

    fn size(&self) -> Option<usize> {
        Some(16)
    }

    fn write(&self, part: &mut [u8]) -> Result<IsNull, Fault> {
        if part.len() < 16 {
            return Err(Fault::new(Rule::NoRoom, 0));
        }
        u64::put(part, 0, self.x)?;
        u64::put(part, 8, self.y)?;
        Ok(IsNull::No)
    }
}

// An optional element is NULL when it is absent.
impl<T: Element> Element for Option<T> {
    ghost value = { λ o. optional T.Element.value o };

    ghost small = { λ o. optional_small T.Element.value T.Element.small o };

    fn size(&self) -> Option<usize> {
        self.as_ref()?.size()
    }

    fn write(&self, part: &mut [u8]) -> Result<IsNull, Fault> {
        match self {
            Some(element) => element.write(part),
            None => Ok(IsNull::Yes),
        }
    }
}
