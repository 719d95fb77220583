//! The weights of a recipe's ingredients: a serializer with a fault of its own; and a validator with one.
#![tactic(auto)]

ghost use Rattle.std.specs.Prelude.{◌≡◌};
ghost use Rattle.serializer.specs.Lists.{item_at};
ghost use Rattle.recipe.specs.Weights.{overflow, int4, weighed, weights, weights_short};

use fault::{Fault, Foreign, Rule};
use serializer::serializer::Serializer;
use wire::oid::IsNull;
use wire::word::Word;

pub mod positive;

// What a scale read, in grams, ingredient by ingredient.
#[derive(Clone, Copy)]
pub struct Weights<'a> {
    readings: &'a [u16],
}

// The scale overflowed at ingredient k. Every number from 128 on is free for a fault of one's own.
fn overflowed(k: usize) -> Fault
    ensures { result ≡ overflow k }
{
    match Foreign::new(200) {
        Some(number) => Fault::new(Rule::Other(number), k),
        None => unreachable(),
    }
}

// The grams of ingredient k by its reading, none where it was not weighed.
fn grams(reading: u16, k: usize) -> Result<Option<u32>, Fault>
    ensures { result ≡ weighed k reading }
{
    match reading {
        0 => Ok(None),
        1..=5000 => Ok(Some(u32::from(reading))),
        _ => Err(overflowed(k)),
    }
}

impl<'a> Weights<'a> {
    pub fn new(readings: &'a [u16]) -> Weights<'a>
        ensures { result.readings.now ≡ readings.now }
    {
        Weights { readings }
    }

    // The grams of ingredient k: rule 10 at k where there is no such ingredient.
    fn weight(&self, k: usize) -> Result<Option<u32>, Fault>
        ensures { int4 result ≡ item_at (weights 0 self.now.readings.now) k }
    {
        if k >= self.readings.len() {
            return Err(Fault::new(Rule::Missing, k));
        }
        grams(self.readings[k], k)
    }
}

impl<'a> Serializer for Weights<'a> {
    ghost items = { λ w. weights 0 w.readings.now };

    ghost short = { λ w. weights_short w.readings.now };

    fn count(&self) -> usize {
        self.readings.len()
    }

    fn size(&self, k: usize) -> Result<Option<usize>, Fault> {
        match self.weight(k)? {
            Some(_) => Ok(Some(4)),
            None => Ok(None),
        }
    }

    fn write(&self, k: usize, part: &mut [u8]) -> Result<IsNull, Fault> {
        match self.weight(k)? {
            Some(grams) => {
                u32::put(part, 0, grams)?;
                Ok(IsNull::No)
            }
            None => Ok(IsNull::Yes),
        }
    }
}

#[cfg(test)]
mod tests {
    use super::positive::Positive;
    use super::*;
    use layer::array_layer::ArrayLayer;
    use layer::range_layer::RangeLayer;
    use pile::{judge, write_judged};
    use range::bound::RangeBound;
    use serializer::elements::ElementList;
    use serializer::nullable::write_nullable;
    use std::test::Fail;
    use validator::array_of::ArrayOf;
    use validator::range_of::RangeOf;

    // An array of the int4 ranges [3, 9) and [1, ): its head, and each behind its length word. The
    // last word stands at 50.
    const RANGES: [u8; 54] = *b"\0\0\0\x01\0\0\0\0\0\0\x0F\x40\0\0\0\x02\0\0\0\x01\
        \0\0\0\x11\x02\0\0\0\x04\0\0\0\x03\0\0\0\x04\0\0\0\x09\
        \0\0\0\x09\x12\0\0\0\x04\0\0\0\x01";

    const POSITIVE_RANGES: ArrayOf<RangeOf<Positive>> = ArrayOf {
        element: RangeOf { bound: Positive },
    };

    #[test]
    fn weighs(rt: HostRuntime) -> Result<(), Fail> {
        let weights = Weights::new(&[250, 0, 9999]);
        let mut part = [0; 8];
        assert!(rt; write_nullable(&weights, 0, &mut part)? == 8);
        assert!(rt; part == [0, 0, 0, 4, 0, 0, 0, 0xfa]);
        assert!(rt; write_nullable(&weights, 1, &mut part)? == 4);
        assert!(rt; part == [0xff, 0xff, 0xff, 0xff, 0, 0, 0, 0xfa]);
        match write_nullable(&weights, 2, &mut part) {
            Ok(_) => Err(Fail::new("the scale overflowed")),
            Err(fault) => {
                assert!(rt; fault.rule.number() == 200 && fault.place == 2 && fault.level == 0);
                Ok(())
            },
        }
    }

    // Whether the bytes are refused by the word at 50, two levels down.
    fn refused_at_50(bytes: &[u8]) -> bool {
        match judge(&POSITIVE_RANGES, bytes) {
            Ok(()) => false,
            Err(fault) => fault.rule.number() == 128 && fault.place == 50 && fault.level == 2,
        }
    }

    #[test]
    fn judges(rt: HostRuntime) -> Result<(), Fail> {
        let mut bytes = RANGES;
        judge(&POSITIVE_RANGES, &bytes)?;
        bytes[53] = 0;
        assert!(rt; refused_at_50(&bytes));
        bytes[50] = 0xff;
        assert!(rt; refused_at_50(&bytes));
        Ok(())
    }

    // Writes one array of the first two items, and answers what is said of it.
    fn write_both<S: Serializer + Drop>(
        ranges: S,
        part: &mut [u8],
    ) -> Result<Option<Result<(), Fault>>, Fault> {
        let mut arrays = ArrayLayer::new(ranges, 3904);
        arrays.add(0, 2)?;
        write_judged(&arrays, 0, &POSITIVE_RANGES, part)
    }

    #[test]
    fn writes(rt: HostRuntime) -> Result<(), Fail> {
        let words = [3i32, 9, 1];
        let mut ranges = RangeLayer::new(ElementList::new(&words));
        ranges.add(RangeBound::Inclusive(0), RangeBound::Exclusive(1))?;
        ranges.add(RangeBound::Inclusive(2), RangeBound::Unbounded)?;
        let mut part = [0; 54];
        match write_both(ranges, &mut part)? {
            Some(verdict) => verdict?,
            None => return Err(Fail::new("a row is never NULL")),
        }
        assert!(rt; part == RANGES);
        Ok(())
    }
}
