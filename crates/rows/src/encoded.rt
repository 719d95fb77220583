//! A value that one of the encoders writes, as an item.
ghost use Rattle.std.specs.Prelude.{◌≡◌, length};
ghost use Rattle.array.specs.Encoding.{counted};
ghost use Rattle.wire.specs.Encoding.{Encoding, told, laid, room_for};
ghost use Rattle.wire.specs.Items.{size_of, null_of, fitting, filled};
ghost use Rattle.rows.specs.Rows.{sealed};

use fault::{Fault, Rule};
use wire::oid::IsNull;

// What is handed to an encoder, with the rules of the call that hands it.
pub trait Encoded {
    // The bytes to write, or the first broken rule.
    ghost encoding: { Self → Encoding };

    // The number of bytes, as far as a usize counts.
    fn size(&self) -> Result<usize, Fault>
        ensures { result ≡ counted (encoding self.now) };

    // Writes to the start of the part, and answers the number of bytes.
    fn write(&self, part: &mut [u8]) -> Result<usize, Fault>
        ensures answer { result ≡ told (room_for (length part.old) (encoding self.now)) }
        ensures after { part.new ≡ laid (room_for (length part.old) (encoding self.now)) part.old };
}

// The longest payload that a length word counts.
const LONGEST: usize = 2_147_483_647;

// The size of an encoded value as item k: rule 12 at k where no length word counts it.
pub fn sealed_size<E: Encoded>(encoded: &E, k: usize) -> Result<Option<usize>, Fault>
    ensures { result ≡ size_of (sealed k (E.Encoded.encoding encoded.now)) }
{
    let size = encoded.size()?;
    if size > LONGEST {
        return Err(Fault::new(Rule::TooGreat, k));
    }
    Ok(Some(size))
}

// Writes an encoded value as item k to the start of the part.
pub fn write_sealed<E: Encoded>(encoded: &E, k: usize, part: &mut [u8]) -> Result<IsNull, Fault>
    ensures answer { result ≡ null_of (fitting (length part.old) (sealed k (E.Encoded.encoding encoded.now))) }
    ensures after { part.new ≡ filled (fitting (length part.old) (sealed k (E.Encoded.encoding encoded.now))) part.old }
{
    // No longer value than a length word counts; all else the size tells apart.
    let most = part.len().min(LONGEST);
    match encoded.write(&mut part[0..most]) {
        Ok(_) => Ok(IsNull::No),
        Err(fault) => {
            sealed_size(encoded, k)?;
            Err(fault)
        }
    }
}
