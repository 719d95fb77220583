//! What stands behind the name of a request.
ghost use Rattle.std.specs.Prelude.{◌≡◌, ℕ, List, IfOk};
ghost use Rattle.answers.specs.Plain.{answered};
ghost use Rattle.syntax.specs.Parsed.{bytes_in};

use answers::plain::bad_request;
use std::alloc::{AllocError, Global};
use syntax::parse::parse_bytes;

// A request that reads a value.
pub trait Reading {
    // The answer to the bytes of a value.
    ghost says: { List ℕ → List ℕ };

    fn answer(heap: Global, bytes: &[u8]) -> Result<Vec<u8>, AllocError>
        ensures { IfOk result (λ v. v.items ≡ says bytes.now) };
}

// The answer to the byte string that an argument is; another argument is a bad request.
pub fn on_bytes<A: Reading>(heap: Global, argument: &[u8]) -> Result<Vec<u8>, AllocError>
    ensures { IfOk result (λ v. v.items ≡ answered A.says (bytes_in argument.now)) }
{
    match parse_bytes(heap, argument)? {
        Some(bytes) => A::answer(heap, &bytes),
        None => bad_request(heap),
    }
}
