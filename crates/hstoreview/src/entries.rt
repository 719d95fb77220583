//! The entries of an hstore that is read.
ghost use Rattle.std.specs.Prelude.{◌≡◌, ◌+◌, ◌^◌, ◌<◌, length};
ghost use Rattle.hstore.specs.Layout.{Entry};
ghost use Rattle.hstore.specs.Recv.{text_at, read_entry};
ghost use Rattle.text.specs.Recv.{told_text};
ghost use Rattle.hstoreview.specs.Views.{seen_entry};

use fault::{Fault, Rule};
use text::text_from_sql;
use wire::cursor::{Cursor, Part};
use wire::read::read_value;

// Entries: the key of each, and its value, none for NULL.
pub struct Entries;

impl<'a> Part<'a> for Entries {
    type Item = (&'a [u8], Option<&'a [u8]>);

    ghost Form = { Entry };

    ghost seen = { seen_entry };

    ghost reader = { read_entry };

    // A key's text is checked before its value is read.
    fn read(buf: &'a [u8], at: usize) -> Result<((&'a [u8], Option<&'a [u8]>), usize), Fault> {
        let Some(key) = read_value(buf, at)? else {
            return Err(Fault::new(Rule::Negative, at));
        };
        let key = check_text(key, at + 4)?;
        let next = at + 4 + key.len();
        match read_value(buf, next)? {
            Some(value) => {
                let value = check_text(value, next + 4)?;
                Ok(((key, Some(value)), 8 + key.len() + value.len()))
            }
            None => Ok(((key, None), 8 + key.len())),
        }
    }
}

// The cursor over the entries.
pub type HstoreEntries<'a> = Cursor<'a, Entries>;

// A text that begins at `start` in the whole value: rule 6 at its first bad character there.
fn check_text(bytes: &[u8], start: usize) -> Result<&[u8], Fault>
    requires { start + length bytes.now < 2 ^ 64 }
    ensures { told_text result ≡ text_at start bytes.now }
{
    match text_from_sql(bytes) {
        Ok(text) => Ok(text),
        Err(fault) => Err(Fault::new(fault.rule, start + fault.place)),
    }
}
