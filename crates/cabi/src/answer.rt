//! How an answer crosses.
ghost use Rattle.std.specs.Prelude.{◌≡◌};
ghost use Rattle.cabi.specs.Sums.{number};

use fault::Fault;

// The number, or the greatest one for any fault: C has one number for both.
pub fn to_number(answer: Result<usize, Fault>) -> usize
    ensures { result ≡ number answer }
{
    match answer {
        Ok(n) => n,
        Err(_) => usize::MAX,
    }
}
