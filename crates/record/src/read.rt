//! Opening a record.
ghost use Rattle.std.specs.Prelude.{◌≡◌};
ghost use Rattle.record.specs.Laws.{ReadsBack, OnlyForms};
ghost use Rattle.record.specs.Recv.{record_recv};
ghost use Rattle.wire.specs.Cursors.{told_opened};

use crate::columns::RecordColumns;
use fault::Fault;
use wire::read::read_count;

// Opens a record: a cursor over its columns. A count below 0 is rule 4 at 0.
pub fn record_from_sql(buf: &[u8]) -> Result<RecordColumns<'_>, Fault>
    ensures answer { told_opened result ≡ record_recv buf.now }
    ensures reads_back { ReadsBack buf.now }
    ensures only_forms { OnlyForms buf.now }
{
    open(buf)
}

fn open(buf: &[u8]) -> Result<RecordColumns<'_>, Fault>
    ensures { told_opened result ≡ record_recv buf.now }
{
    let count = read_count(buf, 0)?;
    Ok(RecordColumns::new(buf, 4, count))
}
