//! A double and its word of eight bytes.
ghost use Rattle.std.specs.Prelude.{◌≡◌};
ghost use Rattle.double.specs.Doubles.{double_word, word_double, one_nan};

use std::num::{f64_from_bits_with_nan, f64_to_bits_with_nan};

// The word of a double. Every NaN has the one word 7FF8000000000000.
pub fn to_word(x: f64) -> u64
    ensures word { result ≡ double_word x }
    ensures back { word_double result ≡ x }
{
    f64_to_bits_with_nan(x)
}

// The double of a word. Every pattern of a NaN is the one NaN.
pub fn from_word(word: u64) -> f64
    ensures double { result ≡ word_double word }
    ensures back { double_word result ≡ one_nan word }
{
    f64_from_bits_with_nan(word)
}
