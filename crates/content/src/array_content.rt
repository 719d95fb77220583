//! An array whose dimensions fit its items.
ghost use Rattle.std.specs.Prelude.{◌≡◌, ◌^◌, ◌<◌, length};
ghost use Rattle.content.specs.Encoders.{array_content};
ghost use Rattle.content.specs.Rules.{dimensions_fit, product_of, factor};

use crate::raised::Raised;
use array::dimension::ArrayDimension;
use array::write::{array_size, array_to_sql};
use fault::{Fault, Rule};
use rows::encoded::Encoded;
use serializer::serializer::Serializer;
use wire::oid::Oid;

// All items of a serializer as an array.
#[derive_where(Clone, Copy)]
pub struct ArrayContent<'a, 'b, S> {
    pub dims: &'a [ArrayDimension],
    pub oid: Oid,
    pub serializer: &'b S,
}

impl<'a, 'b, S: Serializer> Encoded for ArrayContent<'a, 'b, S> {
    ghost encoding = { λ a. array_content a.oid a.dims.now (S.Serializer.items a.serializer.now) };

    fn size(&self) -> Result<usize, Fault> {
        check_dimensions(self.dims, self.serializer.count())?;
        let inner = self.serializer;
        array_size(self.dims, &Raised { inner })
    }

    fn write(&self, part: &mut [u8]) -> Result<usize, Fault> {
        check_dimensions(self.dims, self.serializer.count())?;
        let inner = self.serializer;
        array_to_sql(self.dims, self.oid, &Raised { inner }, part)
    }
}

// Whether dimensions make so many items: rule 13 at the first bad dimension, or at their number.
fn check_dimensions(dims: &[ArrayDimension], items: usize) -> Result<(), Fault>
    ensures { result ≡ dimensions_fit dims.now items }
{
    let product = multiply(dims)?;
    let elements = if dims.len() == 0 { 0 } else { product };
    if elements != items {
        return Err(Fault::new(Rule::Dimensions, dims.len()));
    }
    Ok(())
}

// The product of the lengths, tested at each dimension.
fn multiply(dims: &[ArrayDimension]) -> Result<usize, Fault>
    ensures { result ≡ product_of 0 1 dims.now }
{
    let mut product = 1;
    for (i, dim) in dims.iter().enumerate() {
        product = multiply_by(product, dim.len, i)?;
    }
    Ok(product)
}

// The product with one more length, that of dimension `i`.
fn multiply_by(product: usize, len: i32, i: usize) -> Result<usize, Fault>
    requires { product < 2 ^ 31 }
    ensures { result ≡ factor i product len }
{
    if len < 0 {
        return Err(Fault::new(Rule::Dimensions, i));
    }
    let product = product * len as usize;
    if product > 2_147_483_647 {
        return Err(Fault::new(Rule::Dimensions, i));
    }
    Ok(product)
}
