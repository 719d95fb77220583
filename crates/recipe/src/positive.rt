//! A validator with a rule of its own.
ghost use Rattle.std.specs.Prelude.{◌≡◌};
ghost use Rattle.recipe.specs.Positive.{not_above, positive_verdict, positive_within, PositiveExactly};

use fault::{Fault, Foreign, Rule};
use scalar::int4_from_sql;
use validator::validator::Validator;

// An int4 above 0.
#[derive(Clone, Copy)]
pub struct Positive;

impl Validator for Positive {
    ghost verdict = { λ _. positive_verdict };

    ghost within = { λ _. positive_within };

    fn validate(&self, bytes: &[u8]) -> Result<(), Fault> {
        test_positive(bytes)
    }
}

// Accepts exactly the four bytes of a number above 0. Bytes that are no int4 are refused as
// `int4_from_sql` does, and a number that is not above 0 with rule 128 at 0.
pub fn test_positive(bytes: &[u8]) -> Result<(), Fault>
    ensures answer { result ≡ positive_verdict bytes.now }
    ensures exactly { PositiveExactly bytes.now }
{
    if int4_from_sql(bytes)? > 0 {
        return Ok(());
    }
    Err(refused())
}

// The number is not above 0. Each example of a fault of one's own stands by itself.
fn refused() -> Fault
    ensures { result ≡ not_above }
{
    match Foreign::new(128) {
        Some(number) => Fault::new(Rule::Other(number), 0),
        None => unreachable(),
    }
}
