//! The range layer.
ghost use Rattle.std.specs.Prelude.{◌≡◌, ◌+◌, ◌^◌, ◌<◌, length};
ghost use Rattle.range.specs.Layout.{bound};
ghost use Rattle.range.specs.Recv.{seen_bound};
ghost use Rattle.validator.specs.Verdicts.{side_handed, range_verdict};
ghost use Rattle.validator.specs.Places.{range_within};

use crate::array_of::hand_down;
use crate::validator::Validator;
use fault::Fault;
use range::bound::{Range, RangeBound};
use range::read::range_from_sql;

// Ranges whose bounds the validator below accepts.
#[derive(Clone, Copy)]
pub struct RangeOf<V> {
    pub bound: V,
}

impl<V: Validator> Validator for RangeOf<V> {
    ghost verdict = { λ a. range_verdict (V.Validator.verdict a.bound) };

    ghost within = { λ a. range_within (V.Validator.verdict a.bound) (V.Validator.within a.bound) };

    fn validate(&self, bytes: &[u8]) -> Result<(), Fault> {
        match range_from_sql(bytes)? {
            Range::Empty => Ok(()),
            Range::Nonempty(lower, upper) => {
                let at = hand_side_down(&self.bound, lower, 1)?;
                hand_side_down(&self.bound, upper, at)?;
                Ok(())
            }
        }
    }
}

// Hands the payload of a bound whose bytes begin at `at` down, and answers where they end.
fn hand_side_down<V: Validator>(
    below: &V,
    side: RangeBound<Option<&[u8]>>,
    at: usize,
) -> Result<usize, Fault>
    requires { at + length (bound (seen_bound side)) < 2 ^ 64 }
    ensures { result ≡ side_handed (V.Validator.verdict below.now) at (seen_bound side.entry) }
{
    match side {
        RangeBound::Inclusive(value) | RangeBound::Exclusive(value) => {
            hand_down(below, value, at)?;
            match value {
                Some(payload) => Ok(at + 4 + payload.len()),
                None => Ok(at + 4),
            }
        }
        RangeBound::Unbounded => Ok(at),
    }
}
