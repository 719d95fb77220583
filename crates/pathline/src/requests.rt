//! The requests, each by the rest of its line.
ghost use Rattle.std.specs.Prelude.{◌≡◌, IfOk};
ghost use Rattle.answers.specs.Plain.{answered};
ghost use Rattle.path.specs.Recv.{path_recv};
ghost use Rattle.path.specs.Views.{opened};
ghost use Rattle.syntax.specs.Parsed.{bytes_in};
ghost use Rattle.pathline.specs.Paths.{path_text, path_answer, flag_in, path_written};

use crate::points::{PointNotation, PointTexts};
use answers::parts::push_parts;
use answers::plain::{bad_request, push_flag, refusal};
use answers::written::{blank_part, print_written};
use lines::argument::{Reading, on_bytes};
use listing::list::parse_list;
use path::read::{self, Path};
use std::alloc::{AllocError, Global};
use syntax::parse::split_at_first;

// path_from_sql xB
pub fn path_from_sql(heap: Global, argument: &[u8]) -> Result<Vec<u8>, AllocError>
    ensures { IfOk result (λ v. v.items ≡ answered (λ bs. path_answer (path_recv bs)) (bytes_in argument.now)) }
{
    on_bytes::<ReadPath>(heap, argument)
}

// A path.
struct ReadPath;

impl Reading for ReadPath {
    ghost says = { λ bs. path_answer (path_recv bs) };

    fn answer(heap: Global, bytes: &[u8]) -> Result<Vec<u8>, AllocError> {
        match read::path_from_sql(bytes) {
            Ok(path) => print_path(heap, &path),
            Err(fault) => refusal(heap, fault),
        }
    }
}

// An opened path with all that its cursor gives.
fn print_path(heap: Global, path: &Path<'_>) -> Result<Vec<u8>, AllocError>
    ensures { IfOk result (λ v. v.items ≡ path_text (opened path.now)) }
{
    let mut out = Vec::from_slice(heap, b"path closed=")?;
    push_flag(&mut out, path.closed())?;
    out.push(b' ')?;
    push_parts(&mut out, &mut PointTexts::new(path.points()))?;
    Ok(out)
}

// path_to_sql 0|1 [W:W,..]
pub fn path_to_sql(heap: Global, argument: &[u8]) -> Result<Vec<u8>, AllocError>
    ensures { IfOk result (λ v. v.items ≡ path_written argument.now) }
{
    let Some((closed, list)) = split_at_first(argument, b' ') else {
        return bad_request(heap);
    };
    let Some(closed) = parse_flag(closed) else {
        return bad_request(heap);
    };
    let Some(points) = parse_list::<PointNotation>(heap, list)? else {
        return bad_request(heap);
    };
    let mut part = blank_part(heap, argument)?;
    let written = path::write::path_to_sql(closed, &points, &mut part);
    print_written(heap, written, &part)
}

// 0 or 1
fn parse_flag(word: &[u8]) -> Option<bool>
    ensures { result ≡ flag_in word.now }
{
    match word {
        b"0" => Some(false),
        b"1" => Some(true),
        _ => None,
    }
}
