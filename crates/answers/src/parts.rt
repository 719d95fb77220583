//! A list as a cursor reads it.
ghost use Rattle.std.specs.Prelude.{◌≡◌, ℕ, List, ◌++◌, IfOk, OnOk, Option, Result};
ghost use Rattle.fault.specs.declared.Fault.{Fault};
ghost use Rattle.wire.specs.Cursor.{State, Reader, step};
ghost use Rattle.wire.specs.Cursors.{state, told_next};
ghost use Rattle.answers.specs.Parts.{ShownBy, comma, part_text, goes_on, parts_text};

use crate::plain::push_failure;
use fault::Fault;
use std::alloc::AllocError;
use std::marker::PhantomData;
use wire::cursor::{Cursor, Part};

// A cursor over the parts of a value, each as its text.
pub trait Parts {
    ghost state: { Self → State };

    // The texts of parts, read at a place.
    ghost reads: { Reader (List ℕ) };

    // Prints the next part or the fault, behind a comma unless it is the first; answers whether another
    // may follow. A fault once met is met again.
    fn push_part(&mut self, out: &mut Vec<u8>, first: bool) -> Result<bool, AllocError>
        ensures { IfOk result (λ b. (out.new.items ≡ out.old.items ++ part_text first (step reads (state self.old)).0) × (b ≡ goes_on (step reads (state self.old)).0) × (state self.new ≡ (step reads (state self.old)).1)) };
}

// How parts of a kind are printed.
pub trait PartText<'a, P: Part<'a>> {
    // The text of a part, and how parts are read as their texts.
    ghost text: { P.Item → List ℕ };

    ghost reads: { Reader (List ℕ) };

    // Prints a part to the end of what is there.
    fn push(out: &mut Vec<u8>, item: P::Item) -> Result<(), AllocError>
        ensures { OnOk result (out.new.items ≡ out.old.items ++ text item) };

    // The step that gives a part is one that reads its text.
    ghost shows: { (s : State) (a : Result (Option P.Item) Fault) → told_next P.seen a ≡ (step P.reader s).0 → ShownBy text reads s a (step P.reader s).1 };
}

// What a cursor over parts of a kind gives, each part as its text.
#[derive_where(Clone, Copy)]
pub struct CursorTexts<'a, P, T> {
    pub cursor: Cursor<'a, P>,
    texts: PhantomData<T>,
}

impl<'a, P: Part<'a>, T> CursorTexts<'a, P, T> {
    pub fn new(cursor: Cursor<'a, P>) -> CursorTexts<'a, P, T>
        ensures { result.cursor ≡ cursor.entry }
    {
        CursorTexts {
            cursor,
            texts: PhantomData,
        }
    }
}

impl<'a, P: Part<'a>, T: PartText<'a, P>> Parts for CursorTexts<'a, P, T> {
    ghost state = { λ c. state c.cursor };

    ghost reads = { T.reads };

    fn push_part(&mut self, out: &mut Vec<u8>, first: bool) -> Result<bool, AllocError> {
        match self.cursor.next() {
            Ok(Some(item)) => {
                push_comma(out, first)?;
                T::push(out, item)?;
                Ok(true)
            }
            Ok(None) => Ok(false),
            Err(fault) => {
                push_comma(out, first)?;
                push_failure(out, fault)?;
                Ok(false)
            }
        }
    }
}

// Prints what a cursor gives up to its end or its first fault, as a list.
pub fn push_parts<P: Parts>(out: &mut Vec<u8>, parts: &mut P) -> Result<(), AllocError>
    ensures { OnOk result (out.new.items ≡ out.old.items ++ parts_text P.Parts.reads (P.Parts.state parts.old)) }
{
    out.push(b'[')?;
    let mut first = true;
    while parts.push_part(out, first)? {
        first = false;
    }
    out.push(b']')?;
    Ok(())
}

// What stands before a part, unless it is the first.
pub fn push_comma(out: &mut Vec<u8>, first: bool) -> Result<(), AllocError>
    ensures { OnOk result (out.new.items ≡ out.old.items ++ comma first) }
{
    if !first {
        out.push(b',')?;
    }
    Ok(())
}
