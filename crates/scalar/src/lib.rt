//! Words as bare payloads, as int4send and int8send write them and int4recv and int8recv read them.
#![tactic(auto)]

ghost use Rattle.std.specs.Prelude.{◌≡◌};
ghost use Rattle.wire.specs.Words.{then, ended};
ghost use Rattle.scalar.specs.Words.{int4_recv, int8_recv, Int4Exactly, Int8Exactly};

use fault::Fault;
use wire::read::read_end;
use wire::word::Word;

// The word that four bytes are.
pub fn int4_from_sql(buf: &[u8]) -> Result<i32, Fault>
    ensures answer { result ≡ int4_recv buf.now }
    ensures exactly { Int4Exactly buf.now }
{
    read_whole(buf)
}

// The word that eight bytes are.
pub fn int8_from_sql(buf: &[u8]) -> Result<i64, Fault>
    ensures answer { result ≡ int8_recv buf.now }
    ensures exactly { Int8Exactly buf.now }
{
    read_whole(buf)
}

// The word that the bytes are, with nothing behind it.
fn read_whole<W: Word>(buf: &[u8]) -> Result<W, Fault>
    ensures { result ≡ then (W.word_at buf.now 0) (ended buf.now W.WIDTH) }
{
    let word = W::read(buf, 0)?;
    read_end(buf, W::WIDTH)?;
    Ok(word)
}
