//! The request, by the rest of its line.
ghost use Rattle.std.specs.Prelude.{◌≡◌, IfOk};
ghost use Rattle.checkline.specs.Answers.{checked, check_answer};

use crate::piles::judge_pile;
use crate::words::parse_pile;
use answers::plain::{bad_request, refusal};
use fault::Fault;
use std::alloc::{AllocError, Global};
use syntax::parse::{parse_bytes, split_at_first};

// check PILE xB
pub fn check(heap: Global, argument: &[u8]) -> Result<Vec<u8>, AllocError>
    ensures { IfOk result (λ v. v.items ≡ check_answer argument.now) }
{
    let Some((pile, bytes)) = split_at_first(argument, b' ') else {
        return bad_request(heap);
    };
    let Some((layers, bottom)) = parse_pile(heap, pile)? else {
        return bad_request(heap);
    };
    let Some(bytes) = parse_bytes(heap, bytes)? else {
        return bad_request(heap);
    };
    print_verdict(heap, judge_pile(&layers, bottom, &bytes))
}

fn print_verdict(heap: Global, verdict: Result<(), Fault>) -> Result<Vec<u8>, AllocError>
    ensures { IfOk result (λ v. v.items ≡ checked verdict) }
{
    match verdict {
        Ok(()) => Vec::from_slice(heap, b"accepted"),
        Err(fault) => refusal(heap, fault),
    }
}

#[cfg(test)]
mod tests {
    use super::check as ask;
    use std::alloc::Global;
    use std::process::Abort;
    use std::test::Fail;

    fn says(rt: &impl Abort, heap: Global, argument: &[u8], answer: &[u8]) -> Result<(), Fail> {
        let out = ask(heap, argument)?;
        assert!(rt; &*out == answer);
        Ok(())
    }

    #[test]
    fn checks(rt: HostRuntime) -> Result<(), Fail> {
        let heap = rt.alloc();
        says(&rt, heap, b"int4 x00000001", b"accepted")?;
        says(&rt, heap, b"int4 x000001", b"refused 1@0/0")?;
        says(
            &rt,
            heap,
            b"array(int4) x000000010000000000000017000000010000000100000004000000ff",
            b"accepted",
        )?;
        says(
            &rt,
            heap,
            b"array(int4) x00000001000000000000001700000001000000010000000300ff00",
            b"refused 1@24/1",
        )?;
        says(
            &rt,
            heap,
            b"array(range(text)) x0000000100000000000000170000000100000001000000060a00000001ff",
            b"refused 6@29/2",
        )
    }

    #[test]
    fn deep(rt: HostRuntime) -> Result<(), Fail> {
        let heap = rt.alloc();
        says(
            &rt,
            heap,
            b"array(array(array(array(array(array(array(array(int4)))))))) x000000000000000000000017",
            b"accepted",
        )?;
        says(
            &rt,
            heap,
            b"array(array(array(array(array(array(array(array(array(int4))))))))) x000000000000000000000017",
            b"bad request",
        )?;
        says(&rt, heap, b"array(int4 x00", b"bad request")?;
        says(&rt, heap, b"array(int5) x00", b"bad request")?;
        says(&rt, heap, b"array( x00", b"bad request")
    }
}
