//! What a validator is.
ghost use Rattle.std.specs.Prelude.{◌≡◌, ℕ, List};
ghost use Rattle.validator.specs.Verdicts.{Verdict, Within};

use fault::Fault;

pub trait Validator {
    // What it means: bytes are accepted, or refused with one fault.
    ghost verdict: { Self → Verdict };

    // The place of a fault is at most the length of the bytes.
    ghost within: { (v : Self) (bs : List ℕ) → Within bs (verdict v bs) };

    // Answers by the meaning, and changes nothing.
    fn validate(&self, bytes: &[u8]) -> Result<(), Fault>
        ensures { result ≡ verdict self.now bytes.now };
}

// A validator stays one when it is lent, with the same verdicts.
impl<'a, V: Validator> Validator for &'a V {
    ghost verdict = { λ v. V.Validator.verdict v.now };

    ghost within = { λ v. V.Validator.within v.now };

    fn validate(&self, bytes: &[u8]) -> Result<(), Fault> {
        (**self).validate(bytes)
    }
}
