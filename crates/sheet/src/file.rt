//! Blank sheets, and what all calls share.
ghost use Rattle.std.specs.Prelude.{◌≡◌, ◌+◌, ◌≤◌, true, ◌++◌, length, is_ok, Ok};
ghost use Rattle.range.specs.Encoding.{bytes};
ghost use Rattle.wire.specs.Bytes.{put};
ghost use Rattle.wire.specs.Encoding.{laid, room_for};
ghost use Rattle.wire.specs.Items.{nullable_item};
ghost use Rattle.wire.specs.Words.{be};
ghost use Rattle.sheet.specs.Filing.{Files, blank_bytes, told_blank, sheet_bytes};

use crate::sheet::Sheet;
use content::one_item::{Content, Only};
use fault::{Fault, Rule};
use serializer::nullable::write_nullable;
use wire::oid::Oid;
use wire::word::Word;

impl Sheet {
    // A blank sheet: four zero bytes at the start of the buffer.
    pub fn blank(buffer: &mut [u8]) -> Result<Sheet, Fault>
        ensures answer { result ≡ told_blank (length buffer.old) }
        ensures after { buffer.new ≡ laid (room_for (length buffer.old) (Ok blank_bytes)) buffer.old }
    {
        let fill = i32::put(buffer, 0, 0)?;
        Ok(Sheet { fill, columns: 0 })
    }

    // How many bytes of its buffer the sheet fills.
    pub fn fill(&self) -> usize
        ensures { result ≡ self.now.fill }
    {
        let Sheet { fill, .. } = self;
        *fill
    }

    // How many columns the sheet has.
    pub fn columns(&self) -> usize
        ensures { result ≡ self.now.columns }
    {
        let Sheet { columns, .. } = self;
        *columns
    }

    // The bytes of the sheet: those of its buffer below the fill.
    pub fn bytes<'a>(&self, buffer: &'a [u8]) -> &'a [u8]
        ensures { result.now ≡ sheet_bytes self.now buffer.now }
    {
        let end = self.fill.min(buffer.len());
        &buffer[0..end]
    }

    // Files what fills a column.
    pub(crate) fn file<C: Content>(
        &mut self,
        buffer: &mut [u8],
        oid: Oid,
        content: &C,
    ) -> Result<(), Fault>
        ensures { Files self.old buffer.old oid (C.Content.item content.now) result self.new buffer.new }
    {
        let size = content.size()?;
        let bytes = 8 + size.unwrap_or(0);
        if self.columns >= 2_147_483_647 {
            return Err(Fault::new(Rule::TooGreat, 0));
        }
        if buffer.len() < self.fill || buffer.len() - self.fill < bytes {
            return Err(Fault::new(Rule::NoRoom, 0));
        }
        let columns = self.columns + 1;
        write_column(content, buffer, self.fill, oid)?;
        i32::put(buffer, 0, columns as i32)?;
        self.fill += bytes;
        self.columns = columns;
        Ok(())
    }
}

// Writes a column at `at`: its OID, then the item behind its length word.
fn write_column<C: Content>(
    content: &C,
    buffer: &mut [u8],
    at: usize,
    oid: Oid,
) -> Result<usize, Fault>
    requires sound { is_ok (C.Content.item content.now) ≡ true }
    requires room { at + 4 + length (bytes (nullable_item (C.Content.item content.now))) ≤ length buffer.old }
    ensures answer { result ≡ Ok (at + 4 + length (bytes (nullable_item (C.Content.item content.now)))) }
    ensures after { buffer.new ≡ put at (be 4 oid ++ bytes (nullable_item (C.Content.item content.now))) buffer.old }
{
    let at = u32::put(buffer, at, oid)?;
    let size = write_nullable(&Only { content }, 0, &mut buffer[at..])?;
    Ok(at + size)
}
