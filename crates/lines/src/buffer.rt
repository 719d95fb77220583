//! Input in lines.
ghost use Rattle.std.specs.Prelude.{◌≡◌, [], ◌++◌, OnOk};
ghost use Rattle.lines.specs.Lines.{answer_line, more, Taken, Ended};
ghost use Rattle.lines.specs.Reply.{reply_to};

use crate::protocol::Protocol;
use std::alloc::{AllocError, Global};
use std::marker::PhantomData;
use syntax::parse::split_at_first;

// The line that has begun, as far as its answer depends on it: one byte more than a request may have.
// A longer line has the same answer, however it goes on.
#[derive(Drop)]
pub struct LineBuffer<P> {
    line: Vec<u8>,
    protocol: PhantomData<P>,
}

impl<P: Protocol> LineBuffer<P> {
    pub fn new(heap: Global) -> LineBuffer<P>
        ensures { result.line.items ≡ [] }
    {
        LineBuffer {
            line: Vec::new(heap),
            protocol: PhantomData,
        }
    }

    // Takes input in, and prints the answers to the lines that end in it.
    pub fn take(&mut self, heap: Global, bytes: &[u8], out: &mut Vec<u8>) -> Result<(), AllocError>
        ensures { OnOk result (Taken P.LONGEST_LINE (reply_to P.LONGEST_LINE P.named P.alone) self.old.line.items bytes.now out.old.items out.new.items self.new.line.items) }
    {
        let mut rest = bytes;
        while let Some((piece, behind)) = split_at_first(rest, b'\n') {
            self.push(piece)?;
            self.answer(heap, out)?;
            rest = behind;
        }
        self.push(rest)
    }

    // The line has ended: prints its answer.
    fn answer(&mut self, heap: Global, out: &mut Vec<u8>) -> Result<(), AllocError>
        ensures { OnOk result ((out.new.items ≡ out.old.items ++ answer_line (reply_to P.LONGEST_LINE P.named P.alone) self.old.line.items) × (self.new.line.items ≡ [])) }
    {
        push_answer::<P>(heap, &self.line, out)?;
        self.line.clear();
        Ok(())
    }

    // More bytes of the line, as far as they are kept.
    fn push(&mut self, piece: &[u8]) -> Result<(), AllocError>
        ensures { OnOk result (self.new.line.items ≡ more P.LONGEST_LINE self.old.line.items piece.now) }
    {
        if self.line.len() <= P::LONGEST_LINE {
            self.begin()?;
            let room = (P::LONGEST_LINE - self.line.len()).saturating_add(1);
            self.line
                .extend_from_slice(&piece[..piece.len().min(room)])?;
        }
        Ok(())
    }

    // Begins with as much memory as a read gives, so that it grows by doubling to just the longest line.
    fn begin(&mut self) -> Result<(), AllocError>
        ensures { OnOk result (self.new.line.items ≡ self.old.line.items) }
    {
        if self.line.capacity() == 0 {
            self.line.reserve(4096)?;
        }
        Ok(())
    }

    // At the end of the input: a last line without a newline counts where it is not empty.
    pub fn end(&self, heap: Global, out: &mut Vec<u8>) -> Result<(), AllocError>
        ensures { OnOk result (Ended P.LONGEST_LINE (reply_to P.LONGEST_LINE P.named P.alone) self.now.line.items out.old.items out.new.items) }
    {
        if self.line.is_empty() {
            return Ok(());
        }
        push_answer::<P>(heap, &self.line, out)
    }
}

// Prints the answer to a line, and a newline.
fn push_answer<P: Protocol>(heap: Global, line: &[u8], out: &mut Vec<u8>) -> Result<(), AllocError>
    ensures { OnOk result (out.new.items ≡ out.old.items ++ answer_line (reply_to P.LONGEST_LINE P.named P.alone) line.now) }
{
    let answer = P::reply(heap, line)?;
    out.extend_from_slice(&answer)?;
    out.push(b'\n')?;
    Ok(())
}

#[cfg(test)]
mod tests {
    use super::LineBuffer;
    use crate::protocol::{Protocol, Requests};
    use std::alloc::{AllocError, Global};
    use std::test::Fail;

    // Answers a request by what follows its name, and a word alone by the word.
    struct Echo;

    impl Requests for Echo {
        const LONGEST_LINE: usize = 6;

        ghost LONGEST_LINE = { 6 };

        ghost named = { λ name rest. rest };

        ghost alone = { λ word. word };

        fn answer(heap: Global, _name: &[u8], argument: &[u8]) -> Result<Vec<u8>, AllocError> {
            Vec::from_slice(heap, argument)
        }

        fn answer_alone(heap: Global, word: &[u8]) -> Result<Vec<u8>, AllocError> {
            Vec::from_slice(heap, word)
        }
    }

    // By the words of the line, as for any requests that name no function of their own.
    impl Protocol for Echo {}

    #[test]
    fn answers(rt: HostRuntime) -> Result<(), Fail> {
        let heap = rt.alloc();
        let mut lines = LineBuffer::<Echo>::new(heap);
        let mut out = Vec::new(heap);
        lines.take(heap, b"a bc\nab", &mut out)?;
        lines.take(heap, b"c\n123456\n1234567\n x", &mut out)?;
        lines.end(heap, &mut out)?;
        assert!(rt; *out == *b"bc\nabc\n123456\nbad request\nx\n".as_slice());
        Ok(())
    }
}
