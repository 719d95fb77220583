//! The requests for bit strings, each by the rest of its line.
ghost use Rattle.std.specs.Prelude.{◌≡◌, IfOk, Ok};
ghost use Rattle.answers.specs.Plain.{answered};
ghost use Rattle.syntax.specs.Parsed.{bytes_in};
ghost use Rattle.varbit.specs.Recv.{varbit_recv, seen_bits};
ghost use Rattle.shapeline.specs.Bits.{varbit_answer, varbit_written};

use answers::plain::{bad_request, push_bytes, refusal};
use answers::written::{blank_part, print_written};
use lines::argument::{Reading, on_bytes};
use std::alloc::{AllocError, Global};
use syntax::parse::{parse_bytes, parse_number, split_at_first};
use syntax::print::push_decimal;
use varbit::read::{self, Varbit};

// varbit_from_sql xB
pub fn varbit_from_sql(heap: Global, argument: &[u8]) -> Result<Vec<u8>, AllocError>
    ensures { IfOk result (λ v. v.items ≡ answered (λ bs. varbit_answer (varbit_recv bs)) (bytes_in argument.now)) }
{
    on_bytes::<ReadVarbit>(heap, argument)
}

// A bit string.
struct ReadVarbit;

impl Reading for ReadVarbit {
    ghost says = { λ bs. varbit_answer (varbit_recv bs) };

    fn answer(heap: Global, bytes: &[u8]) -> Result<Vec<u8>, AllocError> {
        match read::varbit_from_sql(bytes) {
            Ok(bits) => print_bits(heap, &bits),
            Err(fault) => refusal(heap, fault),
        }
    }
}

fn print_bits(heap: Global, bits: &Varbit<'_>) -> Result<Vec<u8>, AllocError>
    ensures { IfOk result (λ v. v.items ≡ varbit_answer (Ok (seen_bits bits.now))) }
{
    let mut out = Vec::from_slice(heap, b"varbit bits=")?;
    push_decimal(&mut out, bits.len() as u64)?;
    out.push(b' ')?;
    push_bytes(&mut out, bits.bytes())?;
    Ok(out)
}

// varbit_to_sql BITS xB
pub fn varbit_to_sql(heap: Global, argument: &[u8]) -> Result<Vec<u8>, AllocError>
    ensures { IfOk result (λ v. v.items ≡ varbit_written argument.now) }
{
    let Some((bits, bytes)) = split_at_first(argument, b' ') else {
        return bad_request(heap);
    };
    let Some(bits) = parse_number(bits, u64::MAX) else {
        return bad_request(heap);
    };
    let Some(bytes) = parse_bytes(heap, bytes)? else {
        return bad_request(heap);
    };
    let mut part = blank_part(heap, argument)?;
    let written = varbit::write::varbit_to_sql(bits as usize, &bytes, &mut part);
    print_written(heap, written, &part)
}
