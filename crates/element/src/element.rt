//! What an element is.
ghost use Rattle.std.specs.Prelude.{◌≡◌, length, Ok};
ghost use Rattle.std.specs.Option.{option_map};
ghost use Rattle.wire.specs.Words.{Value};
ghost use Rattle.wire.specs.Items.{Within, null_of, fitting, filled};

use fault::Fault;
use wire::oid::IsNull;

pub trait Element {
    // What it means: NULL, or a payload.
    ghost value: { Self → Value };

    // A payload has at most 64 bytes.
    ghost small: { (e : Self) → Within 64 (Ok (value e)) };

    // The length of the payload, none for NULL.
    fn size(&self) -> Option<usize>
        ensures { result ≡ option_map length (value self.now) };

    // Writes the payload to the start of the part; rule 11 at 0 where the part is shorter. NULL
    // writes nothing.
    fn write(&self, part: &mut [u8]) -> Result<IsNull, Fault>
        ensures answer { result ≡ null_of (fitting (length part.old) (Ok (value self.now))) }
        ensures after { part.new ≡ filled (fitting (length part.old) (Ok (value self.now))) part.old };
}
