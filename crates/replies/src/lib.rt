//! The wide line protocol: every format, read and written, and the check of a value.
#![tactic(auto)]

ghost use Rattle.std.specs.Prelude.{◌≡◌, IfOk};
ghost use Rattle.replies.specs.Reply.{alone_to, answer_to, reply_to};

use addressline::requests::{inet_from_sql, inet_to_sql, text_from_sql};
use answers::plain::bad_request;
use arrayline::requests::{array_from_sql, array_to_sql};
use checkline::requests::check;
use hstoreline::requests::{hstore_from_sql, hstore_to_sql};
use lines::protocol::{Protocol, Requests};
use listing::requests::{element_list, texts};
use pathline::requests::{path_from_sql, path_to_sql};
use rangeline::requests::{empty_range_to_sql, range_from_sql, range_to_sql};
use recordline::requests::record_from_sql;
use shapeline::shapes::{box_from_sql, box_to_sql, point_from_sql, point_to_sql};
use shapeline::varbits::{varbit_from_sql, varbit_to_sql};
use std::alloc::{AllocError, Global};
use std::str;
use syntax::compare::same;

// The protocol of the program `codec_all`.
pub struct Wide;

impl Requests for Wide {
    const LONGEST_LINE: usize = 1048576;

    ghost LONGEST_LINE = { 1048576 };

    ghost named = { answer_to };

    ghost alone = { alone_to };

    fn answer(heap: Global, name: &[u8], argument: &[u8]) -> Result<Vec<u8>, AllocError> {
        let Ok(name) = str::from_utf8(name) else {
            return bad_request(heap);
        };
        match name {
            "text_from_sql" => text_from_sql(heap, argument),
            "array_from_sql" => array_from_sql(heap, argument),
            "range_from_sql" => range_from_sql(heap, argument),
            "hstore_from_sql" => hstore_from_sql(heap, argument),
            "varbit_from_sql" => varbit_from_sql(heap, argument),
            "point_from_sql" => point_from_sql(heap, argument),
            "box_from_sql" => box_from_sql(heap, argument),
            "path_from_sql" => path_from_sql(heap, argument),
            "inet_from_sql" => inet_from_sql(heap, argument),
            "record_from_sql" => record_from_sql(heap, argument),
            "array_to_sql" => array_to_sql(heap, argument),
            "range_to_sql" => range_to_sql(heap, argument),
            "hstore_to_sql" => hstore_to_sql(heap, argument),
            "varbit_to_sql" => varbit_to_sql(heap, argument),
            "point_to_sql" => point_to_sql(heap, argument),
            "box_to_sql" => box_to_sql(heap, argument),
            "path_to_sql" => path_to_sql(heap, argument),
            "inet_to_sql" => inet_to_sql(heap, argument),
            "element_list" => element_list(heap, argument),
            "texts" => texts(heap, argument),
            "check" => check(heap, argument),
            _ => bad_request(heap),
        }
    }

    fn answer_alone(heap: Global, word: &[u8]) -> Result<Vec<u8>, AllocError> {
        // No `match`: on so long a word it would be proved branch by branch, one for each byte.
        if same(word, b"empty_range_to_sql") {
            empty_range_to_sql(heap)
        } else {
            bad_request(heap)
        }
    }
}

impl Protocol for Wide {
    fn reply(heap: Global, line: &[u8]) -> Result<Vec<u8>, AllocError> {
        reply(heap, line)
    }
}

// The answer to the request that a line is; it fails only for want of memory.
pub fn reply(heap: Global, line: &[u8]) -> Result<Vec<u8>, AllocError>
    ensures { IfOk result (λ v. v.items ≡ reply_to line.now) }
{
    lines::protocol::reply::<Wide>(heap, line)
}
