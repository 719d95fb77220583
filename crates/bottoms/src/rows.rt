//! Formats that a cursor reads.
ghost use Rattle.std.specs.Prelude.{◌≡◌};
ghost use Rattle.validator.specs.Verdicts.{to_end};
ghost use Rattle.bottoms.specs.Verdicts.{pass, path_verdict, hstore_verdict};
ghost use Rattle.wire.specs.Cursors.{state};
ghost use Rattle.bottoms.specs.Places.{path_within, hstore_within};

use fault::Fault;
use hstoreview::read::hstore_from_sql;
use path::read::path_from_sql;
use validator::validator::Validator;
use wire::cursor::{Cursor, Part};

// Paths: opened, then every point read.
#[derive(Clone, Copy)]
pub struct Path;

impl Validator for Path {
    ghost verdict = { λ _. path_verdict };

    ghost within = { λ _. path_within };

    fn validate(&self, bytes: &[u8]) -> Result<(), Fault> {
        read_to_end(path_from_sql(bytes)?.points())
    }
}

// Hstore values: opened, then every entry read.
#[derive(Clone, Copy)]
pub struct Hstore;

impl Validator for Hstore {
    ghost verdict = { λ _. hstore_verdict };

    ghost within = { λ _. hstore_within };

    fn validate(&self, bytes: &[u8]) -> Result<(), Fault> {
        read_to_end(hstore_from_sql(bytes)?)
    }
}

// Takes every step of a cursor.
fn read_to_end<'a, P: Part<'a>>(cursor: Cursor<'a, P>) -> Result<(), Fault>
    ensures { result ≡ to_end P.reader pass (state cursor.entry) }
{
    let mut parts = cursor;
    while let Some(_) = parts.next()? {}
    Ok(())
}
