//! The worked examples, as proved lists.
#![tactic(auto)]

ghost use Rattle.std.specs.Prelude.{◌≡◌};
ghost use Rattle.specimens.specs.Deeper.{DeeperSpecimens};
ghost use Rattle.specimens.specs.Specimens.{Specimens};

// Each example holds of the definitions that the codecs' contracts cite. Answers how many there are.
pub fn specimens() -> usize
    ensures count { result ≡ 16 }
    ensures hold { Specimens }
{
    16
}

// Those that take texts or several levels. Answers how many there are.
pub fn deeper_specimens() -> usize
    ensures count { result ≡ 5 }
    ensures hold { DeeperSpecimens }
{
    5
}
