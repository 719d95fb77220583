//! The requests, each by the rest of its line.
ghost use Rattle.std.specs.Prelude.{◌≡◌, IfOk, Ok};
ghost use Rattle.answers.specs.Plain.{answered, wrote};
ghost use Rattle.inet.specs.Layout.{inet_layout};
ghost use Rattle.inet.specs.Recv.{inet_recv};
ghost use Rattle.syntax.specs.Parsed.{bytes_in};
ghost use Rattle.text.specs.Recv.{text_recv};
ghost use Rattle.addressline.specs.Addresses.{text_answer, inet_answer, inet_in};

use crate::address::{parse_inet, push_inet};
use answers::plain::{bad_request, refusal};
use answers::written::print_written;
use fault::Fault;
use inet::address::Inet;
use lines::argument::{Reading, on_bytes};
use std::alloc::{AllocError, Global};

pub fn text_from_sql(heap: Global, argument: &[u8]) -> Result<Vec<u8>, AllocError>
    ensures { IfOk result (λ v. v.items ≡ answered (λ bs. text_answer (text_recv bs)) (bytes_in argument.now)) }
{
    on_bytes::<ReadText>(heap, argument)
}

// A text.
struct ReadText;

impl Reading for ReadText {
    ghost says = { λ bs. text_answer (text_recv bs) };

    fn answer(heap: Global, bytes: &[u8]) -> Result<Vec<u8>, AllocError> {
        match text::text_from_sql(bytes) {
            Ok(_) => Vec::from_slice(heap, b"text ok"),
            Err(fault) => refusal(heap, fault),
        }
    }
}

pub fn inet_from_sql(heap: Global, argument: &[u8]) -> Result<Vec<u8>, AllocError>
    ensures { IfOk result (λ v. v.items ≡ answered (λ bs. inet_answer (inet_recv bs)) (bytes_in argument.now)) }
{
    on_bytes::<ReadInet>(heap, argument)
}

// An address with its mask.
struct ReadInet;

impl Reading for ReadInet {
    ghost says = { λ bs. inet_answer (inet_recv bs) };

    fn answer(heap: Global, bytes: &[u8]) -> Result<Vec<u8>, AllocError> {
        print_inet(heap, inet::read::inet_from_sql(bytes))
    }
}

fn print_inet(heap: Global, read: Result<Inet, Fault>) -> Result<Vec<u8>, AllocError>
    ensures { IfOk result (λ v. v.items ≡ inet_answer read) }
{
    match read {
        Ok(inet) => {
            let mut out = Vec::from_slice(heap, b"inet ")?;
            push_inet(&mut out, inet)?;
            Ok(out)
        }
        Err(fault) => refusal(heap, fault),
    }
}

pub fn inet_to_sql(heap: Global, argument: &[u8]) -> Result<Vec<u8>, AllocError>
    ensures { IfOk result (λ v. v.items ≡ answered (λ i. wrote (Ok (inet_layout i.addr i.netmask))) (inet_in argument.now)) }
{
    let Some(inet) = parse_inet(heap, argument)? else {
        return bad_request(heap);
    };
    let mut part = [0u8; 20];
    let written = inet::write::inet_to_sql(inet.addr(), inet.netmask(), &mut part);
    print_written(heap, written, &part)
}
