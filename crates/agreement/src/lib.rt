//! What holds after every life of a sheet, whichever serializers wrote it.
#![tactic(auto)]

ghost use Rattle.std.specs.Prelude.{◌≡◌, length, Decides};
ghost use Rattle.record.specs.Recv.{record_recv};
ghost use Rattle.sheet.specs.Filing.{sheet_bytes};
ghost use Rattle.pile.specs.Match.{judged};
ghost use Rattle.serializer.specs.Lists.{item_at};
ghost use Rattle.wire.specs.Items.{fitting, filled};
ghost use Rattle.wire.specs.Cursors.{told_opened};
ghost use Rattle.agreement.specs.Agreed.{BookKept, EqualBytes, OneResult};

use fault::Fault;
use pile::write_judged;
use record::columns::RecordColumns;
use record::read::record_from_sql;
use serializer::serializer::Serializer;
use sheet::sheet::Sheet;
use validator::validator::Validator;

// Opens a sheet: a cursor over its columns. Read to the end, and each column by the view of its kind,
// it gives exactly what was filed.
pub fn read<'a>(sheet: &Sheet, buffer: &'a [u8]) -> Result<RecordColumns<'a>, Fault>
    ensures answer { told_opened result ≡ record_recv (sheet_bytes sheet.now buffer.now) }
    ensures book { BookKept sheet.now buffer.now }
{
    record_from_sql(sheet.bytes(buffer))
}

// Whether two sheets hold equal bytes. Where they took the same kinds in the same order, that is
// whether their books are equal.
pub fn same_bytes(ours: &Sheet, buffer: &[u8], theirs: &Sheet, other: &[u8]) -> bool
    ensures answer { Decides result (sheet_bytes ours.now buffer.now ≡ sheet_bytes theirs.now other.now) }
    ensures books { EqualBytes ours.now buffer.now theirs.now other.now }
{
    ours.bytes(buffer) == theirs.bytes(other)
}

// Compares two sheets, writes item k of a serializer to the part and judges it. Its clause
// `one_result` is the whole promise: of both sheets, of the pair, and of serializer and validator.
pub fn compare_and_judge<S: Serializer, V: Validator>(
    ours: &Sheet,
    buffer: &[u8],
    theirs: &Sheet,
    other: &[u8],
    serializer: &S,
    k: usize,
    validator: &V,
    part: &mut [u8],
) -> (bool, Result<Option<Result<(), Fault>>, Fault>)
    ensures same { Decides result.0 (sheet_bytes ours.now buffer.now ≡ sheet_bytes theirs.now other.now) }
    ensures item { result.1 ≡ judged (V.Validator.verdict validator.now) (fitting (length part.old) (item_at (S.Serializer.items serializer.now) k)) }
    ensures after { part.new ≡ filled (fitting (length part.old) (item_at (S.Serializer.items serializer.now) k)) part.old }
    ensures one_result { OneResult ours.now buffer.now theirs.now other.now (S.Serializer.items serializer.now) (V.Validator.verdict validator.now) }
{
    let same = same_bytes(ours, buffer, theirs, other);
    (same, write_judged(serializer, k, validator, part))
}
