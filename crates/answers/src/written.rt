//! What an encoder wrote, as an answer.
ghost use Rattle.std.specs.Prelude.{◌≡◌, length, IfOk};
ghost use Rattle.answers.specs.Plain.{wrote, room, held};

use crate::plain::{print_bytes, refusal};
use fault::Fault;
use std::alloc::{AllocError, Global};

// The part that an encoder is lent for an argument.
pub fn blank_part(heap: Global, argument: &[u8]) -> Result<Vec<u8>, AllocError>
    ensures { IfOk result (λ v. length v.items ≡ room (length argument.now)) }
{
    vec![in heap; 0; argument.len().saturating_mul(4).saturating_add(16)]
}

// The bytes at the start of the part, as many as an encoder answered; or its fault.
pub fn print_written(
    heap: Global,
    written: Result<usize, Fault>,
    part: &[u8],
) -> Result<Vec<u8>, AllocError>
    ensures { IfOk result (λ v. v.items ≡ wrote (held written part.now)) }
{
    match written {
        Ok(n) => print_bytes(heap, &part[..n.min(part.len())]),
        Err(fault) => refusal(heap, fault),
    }
}
