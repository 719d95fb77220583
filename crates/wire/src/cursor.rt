//! Cursors: the parts of a value, read one behind another.
ghost use Rattle.std.specs.Prelude.{◌≡◌, ◌+◌, ◌≤◌, length, IfOk};
ghost use Rattle.wire.specs.Cursor.{Reader, step, before};
ghost use Rattle.wire.specs.Cursors.{state, meeting, told_part, told_next};

use fault::{Fault, Rule};
use std::marker::PhantomData;

// A kind of parts that stand one behind another in a value.
pub trait Part<'a> {
    // What is read, which may lend bytes of the value.
    type Item: Copy;

    // What it stands for.
    ghost Form: { Type 0 };

    ghost seen: { Self.Item → Form };

    // How it is read at a place.
    ghost reader: { Reader Form };

    // The part at `at`, and its number of bytes.
    fn read(buf: &'a [u8], at: usize) -> Result<(Self::Item, usize), Fault>
        ensures answer { told_part seen result ≡ reader buf.now at }
        ensures inside { IfOk result (λ p. at + p.1 ≤ length buf.now) };
}

// The place of the next part, and how many are to come; or the fault that was met.
#[derive_where(Clone, Copy)]
pub struct Cursor<'a, P> {
    buf: &'a [u8],
    at: usize,
    left: usize,
    fault: Option<Fault>,
    parts: PhantomData<P>,
}

impl<'a, P: Part<'a>> Cursor<'a, P> {
    pub fn new(buf: &'a [u8], at: usize, left: usize) -> Cursor<'a, P>
        ensures { state result ≡ before buf.now at left }
    {
        Cursor {
            buf,
            at,
            left,
            fault: None,
            parts: PhantomData,
        }
    }

    // Where the next part begins.
    pub fn place(&self) -> usize
        ensures { result ≡ (state self.now).place }
    {
        let Cursor { at, .. } = self;
        *at
    }

    // The next part, none at the end; a fault once met is met again.
    pub fn next(&mut self) -> Result<Option<P::Item>, Fault>
        ensures answer { told_next P.seen result ≡ (step P.reader (state self.old)).0 }
        ensures after { state self.new ≡ (step P.reader (state self.old)).1 }
    {
        if let Some(fault) = self.fault {
            return Err(fault);
        }
        if self.left == 0 {
            if self.at < self.buf.len() {
                return Err(self.meet(Fault::new(Rule::Trailing, self.at)));
            }
            return Ok(None);
        }
        match P::read(self.buf, self.at) {
            Ok((item, size)) => {
                self.at += size;
                self.left -= 1;
                Ok(Some(item))
            }
            Err(fault) => Err(self.meet(fault)),
        }
    }

    // Keeps a fault, to meet it again.
    fn meet(&mut self, fault: Fault) -> Fault
        ensures answer { result ≡ fault }
        ensures kept { state self.new ≡ meeting fault (state self.old) }
    {
        self.fault = Some(fault);
        fault
    }
}
