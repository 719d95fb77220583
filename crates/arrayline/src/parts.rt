//! The parts of an array as words.
ghost use Rattle.answers.proofs.Steps.{shows};
ghost use Rattle.answers.specs.Parts.{texts_of};
ghost use Rattle.answers.specs.Plain.{seen_value, value_text};
ghost use Rattle.array.specs.Recv.{read_dimension};
ghost use Rattle.wire.specs.Cursor.{read_nullable};
ghost use Rattle.arrayline.specs.Arrays.{dimension_text};

use answers::parts::{CursorTexts, PartText};
use answers::plain::{push_signed, push_value};
use array::dimension::ArrayDimension;
use arrayview::dimensions::Dimensions;
use arrayview::values::Values;
use std::alloc::AllocError;

// A dimension as LENGTH:LOWER.
pub struct DimensionText;

impl<'a> PartText<'a, Dimensions> for DimensionText {
    ghost text = { dimension_text };

    ghost reads = { texts_of dimension_text read_dimension };

    ghost shows = { shows dimension_text read_dimension (λ d. d) };

    fn push(out: &mut Vec<u8>, dimension: ArrayDimension) -> Result<(), AllocError> {
        push_signed(out, dimension.len)?;
        out.push(b':')?;
        push_signed(out, dimension.lower_bound)
    }
}

// The dimensions that a cursor gives, as words.
pub type DimensionTexts<'a> = CursorTexts<'a, Dimensions, DimensionText>;

// An element as NULL or a byte string.
pub struct ValueText;

impl<'a> PartText<'a, Values> for ValueText {
    ghost text = { λ v. value_text (seen_value v) };

    ghost reads = { texts_of value_text read_nullable };

    ghost shows = { shows value_text read_nullable seen_value };

    fn push(out: &mut Vec<u8>, value: Option<&'a [u8]>) -> Result<(), AllocError> {
        push_value(out, value)
    }
}

// The elements that a cursor gives, as words.
pub type ValueTexts<'a> = CursorTexts<'a, Values, ValueText>;
