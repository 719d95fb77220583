//! Reads requests on standard input, one to a line, and prints an answer line for each.
#![tactic(auto)]

ghost use Rattle.std.specs.Prelude.{OnOk};
ghost use Rattle.std.specs.Io.KnownBytes.{IsAtEnd};
ghost use Rattle.codec.specs.Answered.{AllAnswered};

use lines::serve::serve;
use protocol::Narrow;
use std::alloc::Global;
use std::io;
use std::io::{Read, Write};

fn main(rt: HostRuntime) -> io::Result<()> {
    answer_lines(rt.alloc(), &mut rt.stdin(), &mut rt.stdout())
}

// The program over any reader and writer: every line is answered as the narrow protocol says.
fn answer_lines<R: Read, W: Write>(heap: Global, input: &mut R, output: &mut W) -> io::Result<()>
    ensures answers { OnOk result (AllAnswered (R.remaining input.old) (W.contents output.old) (W.contents output.new)) }
    ensures end { OnOk result (IsAtEnd (R.remaining input.new)) }
{
    serve::<Narrow, R, W>(heap, input, output)
}
