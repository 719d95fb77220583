//! What piles of layers promise, at any depth and over any bottom.
#![tactic(auto)]

ghost use Rattle.std.specs.Prelude.{◌≡◌, List, length};
ghost use Rattle.serializer.specs.Lists.{item_at};
ghost use Rattle.wire.specs.Items.{fitting, filled};
ghost use Rattle.pile.specs.Back.{ReadsBack};
ghost use Rattle.pile.specs.Match.{Matching, NotRefused, judged};
ghost use Rattle.pile.specs.Piles.{ReadsExactly};

use fault::Fault;
use serializer::serializer::Serializer;
use validator::validator::Validator;

// What a validator says of the bytes. Where it is a pile of layers over a bottom, that is what reading
// to the end at every level meets: accepted where it meets no fault, else the first one.
pub fn judge<V: Validator>(validator: &V, bytes: &[u8]) -> Result<(), Fault>
    ensures answer { result ≡ V.Validator.verdict validator.now bytes.now }
    ensures reads { ReadsExactly (V.Validator.verdict validator.now) bytes.now }
{
    validator.validate(bytes)
}

// Writes item k to the start of the part, and answers what the validator says of it, none for NULL;
// an error is a refusal to write. Where the two are matching piles, the payload is accepted; and what
// a pile writes reads back as its rows, down to the items of its bottom.
pub fn write_judged<S: Serializer, V: Validator>(
    serializer: &S,
    k: usize,
    validator: &V,
    part: &mut [u8],
) -> Result<Option<Result<(), Fault>>, Fault>
    ensures answer { result ≡ judged (V.Validator.verdict validator.now) (fitting (length part.old) (item_at (S.Serializer.items serializer.now) k)) }
    ensures after { part.new ≡ filled (fitting (length part.old) (item_at (S.Serializer.items serializer.now) k)) part.old }
    ensures accepted { Matching (S.Serializer.items serializer.now) (V.Validator.verdict validator.now) → NotRefused result }
    ensures back { ReadsBack (S.Serializer.items serializer.now) k }
{
    write_and_judge(serializer, k, validator, part)
}

// The bytes that were written are judged where they stand.
fn write_and_judge<S: Serializer, V: Validator>(
    serializer: &S,
    k: usize,
    validator: &V,
    part: &mut [u8],
) -> Result<Option<Result<(), Fault>>, Fault>
    ensures answer { result ≡ judged (V.Validator.verdict validator.now) (fitting (length part.old) (item_at (S.Serializer.items serializer.now) k)) }
    ensures after { part.new ≡ filled (fitting (length part.old) (item_at (S.Serializer.items serializer.now) k)) part.old }
{
    let size = serializer.size(k)?;
    serializer.write(k, part)?;
    match size {
        Some(length) => Ok(Some(validator.validate(&part[0..length]))),
        None => Ok(None),
    }
}
