//! The answers that requests share.
ghost use Rattle.std.specs.Prelude.{◌≡◌, ◌++◌, IfOk, Ok, OnOk};
ghost use Rattle.syntax.specs.Printed.{byte_string};
ghost use Rattle.answers.specs.Plain.{bad_request, refused, wrote, failure, seen_value, value_text, signed_text, flag_text};

use fault::Fault;
use std::alloc::{AllocError, Global};
use syntax::print::{push_decimal, push_fault, push_hex};

// A line that is no request.
pub fn bad_request(heap: Global) -> Result<Vec<u8>, AllocError>
    ensures { IfOk result (λ v. v.items ≡ bad_request) }
{
    Vec::from_slice(heap, b"bad request")
}

// A fault that was met.
pub fn refusal(heap: Global, fault: Fault) -> Result<Vec<u8>, AllocError>
    ensures { IfOk result (λ v. v.items ≡ refused fault) }
{
    let mut out = Vec::from_slice(heap, b"refused ")?;
    push_fault(&mut out, fault)?;
    Ok(out)
}

// The bytes that were written.
pub fn print_bytes(heap: Global, bytes: &[u8]) -> Result<Vec<u8>, AllocError>
    ensures { IfOk result (λ v. v.items ≡ wrote (Ok bytes.now)) }
{
    let mut out = Vec::from_slice(heap, b"wrote x")?;
    push_hex(&mut out, bytes)?;
    Ok(out)
}

// A fault in a list.
pub fn push_failure(out: &mut Vec<u8>, fault: Fault) -> Result<(), AllocError>
    ensures { OnOk result (out.new.items ≡ out.old.items ++ failure fault) }
{
    out.push(b'!')?;
    push_fault(out, fault)
}

// Bytes, as a byte string.
pub fn push_bytes(out: &mut Vec<u8>, bytes: &[u8]) -> Result<(), AllocError>
    ensures { OnOk result (out.new.items ≡ out.old.items ++ byte_string bytes.now) }
{
    out.push(b'x')?;
    push_hex(out, bytes)
}

// NULL, or a byte string.
pub fn push_value(out: &mut Vec<u8>, value: Option<&[u8]>) -> Result<(), AllocError>
    ensures { OnOk result (out.new.items ≡ out.old.items ++ value_text (seen_value value.entry)) }
{
    match value {
        None => out.extend_from_slice(b"NULL"),
        Some(bytes) => push_bytes(out, bytes),
    }
}

// A signed number in decimal digits.
pub fn push_signed(out: &mut Vec<u8>, n: i32) -> Result<(), AllocError>
    ensures { OnOk result (out.new.items ≡ out.old.items ++ signed_text n) }
{
    if n < 0 {
        out.push(b'-')?;
    }
    push_decimal(out, u64::from(n.unsigned_abs()))
}

// 1 or 0.
pub fn push_flag(out: &mut Vec<u8>, flag: bool) -> Result<(), AllocError>
    ensures { OnOk result (out.new.items ≡ out.old.items ++ flag_text flag) }
{
    out.push(if flag { b'1' } else { b'0' })?;
    Ok(())
}
