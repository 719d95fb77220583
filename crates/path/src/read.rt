//! The view of a path.
ghost use Rattle.std.specs.Prelude.{◌≡◌};
ghost use Rattle.wire.specs.Cursors.{state};
ghost use Rattle.path.specs.Laws.{ReadsBack, OnlyForms};
ghost use Rattle.path.specs.Recv.{path_recv, at_points};
ghost use Rattle.path.specs.Views.{opened, told_path};

use crate::points::PathPoints;
use fault::Fault;
use wire::read::read_count;
use wire::word::Word;

// An opened path.
#[derive(Clone, Copy)]
pub struct Path<'a> {
    buf: &'a [u8],
    closed: bool,
    count: usize,
}

// Opens a path: whether it is closed, and how many points it has. A count below 0 is rule 4 at 1.
pub fn path_from_sql(buf: &[u8]) -> Result<Path<'_>, Fault>
    ensures answer { told_path result ≡ path_recv buf.now }
    ensures reads_back { ReadsBack buf.now }
    ensures only_forms { OnlyForms buf.now }
{
    open(buf)
}

fn open(buf: &[u8]) -> Result<Path<'_>, Fault>
    ensures { told_path result ≡ path_recv buf.now }
{
    let byte = u8::read(buf, 0)?;
    let count = read_count(buf, 1)?;
    Ok(Path {
        buf,
        closed: byte != 0,
        count,
    })
}

impl<'a> Path<'a> {
    pub fn closed(&self) -> bool
        ensures { result ≡ (opened self.now).closed }
    {
        self.closed
    }

    pub fn points(&self) -> PathPoints<'a>
        ensures { state result ≡ at_points (opened self.now) }
    {
        PathPoints::new(self.buf, 5, self.count)
    }
}
