//! A program that answers a line protocol.
ghost use Rattle.std.specs.Prelude.{◌≡◌, ℕ, List, [], IfOk, OnOk, IfSome};
ghost use Rattle.std.specs.Io.KnownBytes.{Appends, Consumes, IsAtEnd};
ghost use Rattle.lines.specs.Lines.{Taken, Ended, answers_to};
ghost use Rattle.lines.specs.Reply.{reply_to};

use crate::buffer::LineBuffer;
use crate::protocol::Protocol;
use std::alloc::Global;
use std::io;
use std::io::{ErrorKind, Read, Write};

// Reads requests up to the end of the input, one to a line, and writes an answer line for each.
pub fn serve<P: Protocol, R: Read, W: Write>(
    heap: Global,
    input: &mut R,
    output: &mut W,
) -> io::Result<()>
    ensures answers { OnOk result (IfSome (R.remaining input.old) (λ bs. Appends (W.contents output.old) (W.contents output.new) (answers_to (reply_to P.LONGEST_LINE P.named P.alone) bs))) }
    ensures end { OnOk result (IsAtEnd (R.remaining input.new)) }
{
    let mut lines = LineBuffer::<P>::new(heap);
    // Both keep their memory from turn to turn.
    let mut chunk = [0u8; 4096];
    let mut out = Vec::new(heap);
    for _ in 0..u64::MAX {
        if answer_some(heap, &mut lines, input, output, &mut chunk, &mut out)? == 0 {
            return answer_rest(heap, &lines, output);
        }
    }
    Err(io::Error::from(ErrorKind::Other))
}

// Reads once, and writes the answers to the lines that end there. Answers how much was read.
fn answer_some<P: Protocol, R: Read, W: Write>(
    heap: Global,
    lines: &mut LineBuffer<P>,
    input: &mut R,
    output: &mut W,
    chunk: &mut [u8; 4096],
    out: &mut Vec<u8>,
) -> io::Result<usize>
    requires { out.old.items ≡ [] }
    ensures { IfOk result (λ n. (out.new.items ≡ []) × (bs : List ℕ) × (text : List ℕ) × Consumes (R.remaining input.old) (R.remaining input.new) bs × (n ≡ 0 → IsAtEnd (R.remaining input.new)) × Taken P.LONGEST_LINE (reply_to P.LONGEST_LINE P.named P.alone) lines.old.line.items bs [] text lines.new.line.items × Appends (W.contents output.old) (W.contents output.new) text) }
{
    let n = input.read(chunk)?;
    lines.take(heap, &chunk[..n], out)?;
    output.write_all(out)?;
    out.clear();
    Ok(n)
}

// Writes the answer to a last line without a newline.
fn answer_rest<P: Protocol, W: Write>(
    heap: Global,
    lines: &LineBuffer<P>,
    output: &mut W,
) -> io::Result<()>
    ensures { OnOk result ((text : List ℕ) × Ended P.LONGEST_LINE (reply_to P.LONGEST_LINE P.named P.alone) lines.now.line.items [] text × Appends (W.contents output.old) (W.contents output.new) text) }
{
    let mut out = Vec::new(heap);
    lines.end(heap, &mut out)?;
    output.write_all(&out)
}
