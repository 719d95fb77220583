//! Reading a bit string.
ghost use Rattle.std.specs.Prelude.{◌≡◌, ◌==◌};
ghost use Rattle.varbit.specs.Laws.{OnlyLayouts};
ghost use Rattle.varbit.specs.Recv.{seen_bits, told_bits, varbit_recv};

use fault::{Fault, Rule};
use wire::read::{read_count, read_end};

// A bit string that was read.
#[derive(Clone, Copy)]
pub struct Varbit<'a> {
    len: usize,
    bytes: &'a [u8],
}

// The bit string that the bytes are. Padding bits stay as they are.
pub fn varbit_from_sql(buf: &[u8]) -> Result<Varbit<'_>, Fault>
    ensures answer { told_bits result ≡ varbit_recv buf.now }
    ensures only_layouts { OnlyLayouts buf.now }
{
    read_varbit(buf)
}

// One byte for each eight bits begun, and nothing behind them.
fn read_varbit(buf: &[u8]) -> Result<Varbit<'_>, Fault>
    ensures { told_bits result ≡ varbit_recv buf.now }
{
    let len = read_count(buf, 0)?;
    let end = 4 + (len + 7) / 8;
    if buf.len() < end {
        return Err(Fault::new(Rule::Overrun, 0));
    }
    read_end(buf, end)?;
    Ok(Varbit {
        len,
        bytes: &buf[4..],
    })
}

impl<'a> Varbit<'a> {
    // The number of bits.
    pub fn len(&self) -> usize
        ensures { result ≡ (seen_bits self.now).0 }
    {
        self.len
    }

    pub fn is_empty(&self) -> bool
        ensures { result ≡ ((seen_bits self.now).0 == 0) }
    {
        0 == self.len
    }

    pub fn bytes(&self) -> &'a [u8]
        ensures { result.now ≡ (seen_bits self.now).1 }
    {
        self.bytes
    }
}
