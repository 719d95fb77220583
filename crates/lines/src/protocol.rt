//! A line protocol: a request in, an answer out.
ghost use Rattle.std.specs.Prelude.{◌≡◌, ℕ, List, IfOk};
ghost use Rattle.lines.specs.Reply.{reply_to};

use answers::plain::bad_request;
use std::alloc::{AllocError, Global};
use syntax::parse::split_at_first;

// The requests that a line protocol knows, and how long a line may be.
pub trait Requests {
    // A longer line is a bad request.
    const LONGEST_LINE: usize;

    ghost LONGEST_LINE: { ℕ };

    // The answer to a request by its name and what follows it.
    ghost named: { List ℕ → List ℕ → List ℕ };

    // The answer to a line that is a word alone.
    ghost alone: { List ℕ → List ℕ };

    fn answer(heap: Global, name: &[u8], argument: &[u8]) -> Result<Vec<u8>, AllocError>
        ensures { IfOk result (λ v. v.items ≡ named name.now argument.now) };

    fn answer_alone(heap: Global, word: &[u8]) -> Result<Vec<u8>, AllocError>
        ensures { IfOk result (λ v. v.items ≡ alone word.now) };
}

// Requests, with the answer that a program prints for a line. `reply` gives it; a protocol may name here the
// function that has it as its contract, so that the program goes through that function.
pub trait Protocol: Requests {
    fn reply(heap: Global, line: &[u8]) -> Result<Vec<u8>, AllocError>
        ensures { IfOk result (λ v. v.items ≡ reply_to Self.LONGEST_LINE Self.named Self.alone line.now) }
    {
        reply::<Self>(heap, line)
    }
}

// The answer to a line by its words; it fails only for want of memory.
pub fn reply<P: Requests>(heap: Global, line: &[u8]) -> Result<Vec<u8>, AllocError>
    ensures { IfOk result (λ v. v.items ≡ reply_to P.LONGEST_LINE P.named P.alone line.now) }
{
    if line.len() > P::LONGEST_LINE {
        return bad_request(heap);
    }
    match split_at_first(line, b' ') {
        Some((name, argument)) => P::answer(heap, name, argument),
        None => P::answer_alone(heap, line),
    }
}
