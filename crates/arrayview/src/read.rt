//! The view of an array, with all its dimensions read.
ghost use Rattle.std.specs.Prelude.{◌≡◌, ◌+◌, ◌*◌, ◌^◌, ◌<◌};
ghost use Rattle.array.specs.Laws.{ReadsBack, OnlyForms};
ghost use Rattle.array.specs.Recv.{array_recv, product_at, product_from, at_dimensions, at_values};
ghost use Rattle.wire.specs.Cursors.{state};
ghost use Rattle.wire.specs.Words.{then, i32_at, count_at};
ghost use Rattle.arrayview.specs.Views.{opened, told_array};

use crate::dimensions::ArrayDimensions;
use crate::values::ArrayValues;
use fault::{Fault, Rule};
use wire::oid::Oid;
use wire::read::read_count;
use wire::word::Word;

// An opened array.
#[derive(Clone, Copy)]
pub struct Array<'a> {
    buf: &'a [u8],
    // how many dimensions there are, and where the elements begin
    count: usize,
    start: usize,
    nulls: bool,
    oid: Oid,
    elements: usize,
}

// Opens an array. All its dimensions are read; its elements are not.
pub fn array_from_sql(buf: &[u8]) -> Result<Array<'_>, Fault>
    ensures answer { told_array result ≡ array_recv buf.now }
    ensures reads_back { ReadsBack buf.now }
    ensures only_forms { OnlyForms buf.now }
{
    let count = read_count(buf, 0)?;
    let flag = u32::read(buf, 4)?;
    let oid = u32::read(buf, 8)?;
    let product = read_product(buf, count)?;
    Ok(Array {
        buf,
        count,
        start: 12 + 8 * count,
        nulls: flag != 0,
        oid,
        elements: if count == 0 { 0 } else { product },
    })
}

// The product of the lengths of all dimensions, tested at each of them.
fn read_product(buf: &[u8], count: usize) -> Result<usize, Fault>
    ensures { result ≡ product_from count buf.now 12 1 }
{
    let mut product = 1;
    for i in 0..count {
        product = read_factor(buf, 12 + 8 * i, product)?;
    }
    Ok(product)
}

// The product with the length of the dimension at `at`, tested once its lower bound is read.
fn read_factor(buf: &[u8], at: usize, product: usize) -> Result<usize, Fault>
    requires { product < 2 ^ 31 }
    ensures { result ≡ then (count_at buf.now at) (λ len. then (i32_at buf.now (at + 4)) (λ _. product_at at (product * len))) }
{
    let len = read_count(buf, at)?;
    i32::read(buf, at + 4)?;
    let product = product * len;
    if product > 2_147_483_647 {
        return Err(Fault::new(Rule::Product, at));
    }
    Ok(product)
}

impl<'a> Array<'a> {
    // Whether the flag says that an element is NULL.
    pub fn has_nulls(&self) -> bool
        ensures { result ≡ (opened self.now).nulls }
    {
        self.nulls
    }

    pub fn element_type(&self) -> Oid
        ensures { result ≡ (opened self.now).oid }
    {
        self.oid
    }

    pub fn dimensions(&self) -> ArrayDimensions<'a>
        ensures { state result ≡ at_dimensions (opened self.now) }
    {
        let end = self.start.min(self.buf.len());
        ArrayDimensions::new(&self.buf[..end], 12, self.count)
    }

    pub fn values(&self) -> ArrayValues<'a>
        ensures { state result ≡ at_values (opened self.now) }
    {
        ArrayValues::new(self.buf, self.start, self.elements)
    }
}
