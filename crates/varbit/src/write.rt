//! Writing a bit string.
ghost use Rattle.std.specs.Prelude.{◌≡◌, length};
ghost use Rattle.wire.specs.Encoding.{told, laid, room_for};
ghost use Rattle.varbit.specs.Laws.{WrittenBack, Distinct};
ghost use Rattle.varbit.specs.Layout.{varbit_encoding};

use fault::{Fault, Rule};
use wire::word::Word;
use wire::write::{from_usize, put_bytes};

// Writes a bit count and bytes to the start of the part, and answers the number of bytes. The two
// are not compared.
pub fn varbit_to_sql(len: usize, bytes: &[u8], part: &mut [u8]) -> Result<usize, Fault>
    ensures answer { result ≡ told (room_for (length part.old) (varbit_encoding len bytes.now)) }
    ensures after { part.new ≡ laid (room_for (length part.old) (varbit_encoding len bytes.now)) part.old }
    ensures written_back { WrittenBack len bytes.now }
    ensures distinct { Distinct len bytes.now }
{
    encode(len, bytes, part)
}

// Tests and then writes.
fn encode(len: usize, bytes: &[u8], part: &mut [u8]) -> Result<usize, Fault>
    ensures answer { result ≡ told (room_for (length part.old) (varbit_encoding len bytes.now)) }
    ensures after { part.new ≡ laid (room_for (length part.old) (varbit_encoding len bytes.now)) part.old }
{
    let count = from_usize(len, 0)?;
    if part.len() < 4 || part.len() - 4 < bytes.len() {
        return Err(Fault::new(Rule::NoRoom, 0));
    }
    let at = i32::put(part, 0, count)?;
    put_bytes(part, at, bytes)
}
