//! The numbers that are free for other implementations.
ghost use Rattle.std.specs.Prelude.{◌≡◌, ◌≤◌};

// The number of a fault of another implementation: 128 to 255.
#[derive(Clone, Copy, PartialEq, Eq, Debug)]
pub struct Foreign {
    number: u8,
    ghost least: { 128 ≤ number },
}

impl Foreign {
    ghost use Rattle.fault.specs.Faults.{foreign, foreign_of, told_foreign};

    // None for a number below 128.
    pub fn new(number: u8) -> Option<Foreign>
        ensures told { told_foreign result ≡ foreign number }
        ensures made { result ≡ foreign_of number }
    {
        if number < 128 {
            return None;
        }
        Some(Foreign { number })
    }

    pub(crate) fn number(self) -> u8
        ensures { result ≡ self.number }
    {
        self.number
    }
}
