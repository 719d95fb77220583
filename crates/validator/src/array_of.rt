//! The array layer.
ghost use Rattle.std.specs.Prelude.{◌≡◌, ◌+◌, ◌^◌, ◌<◌, length};
ghost use Rattle.wire.specs.Cursor.{read_nullable};
ghost use Rattle.wire.specs.Items.{nullable};
ghost use Rattle.std.specs.Option.{option_map};
ghost use Rattle.validator.specs.Verdicts.{handed, to_end, array_verdict};
ghost use Rattle.wire.specs.Cursors.{state};
ghost use Rattle.validator.specs.Places.{array_within};

use crate::validator::Validator;
use arrayview::read::array_from_sql;
use arrayview::values::ArrayValues;
use fault::Fault;

// Arrays whose elements the validator below accepts.
#[derive(Clone, Copy)]
pub struct ArrayOf<V> {
    pub element: V,
}

impl<V: Validator> Validator for ArrayOf<V> {
    ghost verdict = { λ a. array_verdict (V.Validator.verdict a.element) };

    ghost within = { λ a. array_within (V.Validator.verdict a.element) (V.Validator.within a.element) };

    fn validate(&self, bytes: &[u8]) -> Result<(), Fault> {
        read_to_end(&self.element, array_from_sql(bytes)?.values())
    }
}

// Takes every step of the cursor, and hands each payload down before the next step.
fn read_to_end<V: Validator>(below: &V, values: ArrayValues<'_>) -> Result<(), Fault>
    ensures { result ≡ to_end read_nullable (handed (V.Validator.verdict below.now)) (state values.entry) }
{
    let mut values = values;
    let mut at = values.place();
    while let Some(value) = values.next()? {
        hand_down(below, value, at)?;
        at = values.place();
    }
    Ok(())
}

// Hands a value whose length word stands at `at` to the validator below, unless it is NULL. A fault
// comes up by its place in the whole value.
pub(crate) fn hand_down<V: Validator>(
    below: &V,
    value: Option<&[u8]>,
    at: usize,
) -> Result<(), Fault>
    requires { at + length (nullable (option_map (λ x. x.now) value)) < 2 ^ 64 }
    ensures { result ≡ handed (V.Validator.verdict below.now) at (option_map (λ x. x.now) value.entry) }
{
    let Some(payload) = value else {
        return Ok(());
    };
    below.validate(payload).map_err(|fault| fault.up(at + 4))
}
