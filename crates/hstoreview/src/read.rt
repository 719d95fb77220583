//! Opening an hstore.
ghost use Rattle.std.specs.Prelude.{◌≡◌};
ghost use Rattle.hstore.specs.Laws.{ReadsBack, OnlyForms};
ghost use Rattle.hstore.specs.Recv.{hstore_recv};
ghost use Rattle.wire.specs.Cursors.{told_opened};

use crate::entries::HstoreEntries;
use fault::Fault;
use wire::read::read_count;

// Opens an hstore: a cursor over its entries. A count below 0 is rule 4 at 0.
pub fn hstore_from_sql(buf: &[u8]) -> Result<HstoreEntries<'_>, Fault>
    ensures answer { told_opened result ≡ hstore_recv buf.now }
    ensures reads_back { ReadsBack buf.now }
    ensures only_forms { OnlyForms buf.now }
{
    open(buf)
}

fn open(buf: &[u8]) -> Result<HstoreEntries<'_>, Fault>
    ensures { told_opened result ≡ hstore_recv buf.now }
{
    let count = read_count(buf, 0)?;
    Ok(HstoreEntries::new(buf, 4, count))
}
