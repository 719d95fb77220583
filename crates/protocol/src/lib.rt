//! The narrow line protocol: texts, addresses and the items of two serializers.
#![tactic(auto)]

ghost use Rattle.std.specs.Prelude.{◌≡◌, IfOk};
ghost use Rattle.answers.specs.Plain.{bad_request};
ghost use Rattle.protocol.specs.Reply.{answer_to, reply_to};

use addressline::requests::{inet_from_sql, inet_to_sql, text_from_sql};
use answers::plain::bad_request;
use lines::protocol::{Protocol, Requests};
use listing::requests::{element_list, texts};
use std::alloc::{AllocError, Global};
use std::str;

// The protocol of the program `codec`.
pub struct Narrow;

impl Requests for Narrow {
    const LONGEST_LINE: usize = 65536;

    ghost LONGEST_LINE = { 65536 };

    ghost named = { answer_to };

    ghost alone = { λ _. bad_request };

    fn answer(heap: Global, name: &[u8], argument: &[u8]) -> Result<Vec<u8>, AllocError> {
        let Ok(name) = str::from_utf8(name) else {
            return bad_request(heap);
        };
        match name {
            "text_from_sql" => text_from_sql(heap, argument),
            "inet_from_sql" => inet_from_sql(heap, argument),
            "inet_to_sql" => inet_to_sql(heap, argument),
            "element_list" => element_list(heap, argument),
            "texts" => texts(heap, argument),
            _ => bad_request(heap),
        }
    }

    fn answer_alone(heap: Global, _word: &[u8]) -> Result<Vec<u8>, AllocError> {
        bad_request(heap)
    }
}

impl Protocol for Narrow {
    fn reply(heap: Global, line: &[u8]) -> Result<Vec<u8>, AllocError> {
        reply(heap, line)
    }
}

// The answer to the request that a line is; it fails only for want of memory.
pub fn reply(heap: Global, line: &[u8]) -> Result<Vec<u8>, AllocError>
    ensures { IfOk result (λ v. v.items ≡ reply_to line.now) }
{
    lines::protocol::reply::<Narrow>(heap, line)
}
