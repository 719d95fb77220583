//! The two layers, as one.
ghost use Rattle.pile.specs.Piles.{layer_verdict};
ghost use Rattle.checkline.specs.Layers.{named, layer_within};

use fault::Fault;
use validator::array_of::ArrayOf;
use validator::range_of::RangeOf;
use validator::validator::Validator;

#[derive(Clone, Copy)]
pub enum Layer {
    Array,
    Range,
}

// Arrays or ranges of what the validator below accepts.
#[derive(Clone, Copy)]
pub struct Layered<V> {
    pub layer: Layer,
    pub below: V,
}

impl<V: Validator> Validator for Layered<V> {
    ghost verdict = { λ a. layer_verdict (named a.layer) (V.Validator.verdict a.below) };

    ghost within = { λ a. layer_within (named a.layer) (V.Validator.verdict a.below) (V.Validator.within a.below) };

    fn validate(&self, bytes: &[u8]) -> Result<(), Fault> {
        match self.layer {
            Layer::Array => ArrayOf {
                element: &self.below,
            }
            .validate(bytes),
            Layer::Range => RangeOf { bound: &self.below }.validate(bytes),
        }
    }
}
