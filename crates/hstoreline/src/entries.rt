//! The entries of an hstore that is read, as words.
ghost use Rattle.answers.proofs.Steps.{shows};
ghost use Rattle.answers.specs.Parts.{texts_of};
ghost use Rattle.hstore.specs.Recv.{read_entry};
ghost use Rattle.hstoreview.specs.Views.{seen_entry};
ghost use Rattle.hstoreline.specs.Hstores.{entry_text};

use answers::parts::{CursorTexts, PartText};
use answers::plain::{push_bytes, push_value};
use hstoreview::entries::Entries;
use std::alloc::AllocError;

// An entry as xKEY=xVALUE or xKEY=NULL.
pub struct EntryText;

impl<'a> PartText<'a, Entries> for EntryText {
    ghost text = { λ e. entry_text (seen_entry e) };

    ghost reads = { texts_of entry_text read_entry };

    ghost shows = { shows entry_text read_entry seen_entry };

    fn push(out: &mut Vec<u8>, entry: (&'a [u8], Option<&'a [u8]>)) -> Result<(), AllocError> {
        let (key, value) = entry;
        push_bytes(out, key)?;
        out.push(b'=')?;
        push_value(out, value)
    }
}

// The entries that a cursor gives, as words.
pub type EntryTexts<'a> = CursorTexts<'a, Entries, EntryText>;
