//! What is wrong, where, and how many levels down.
#![tactic(auto)]

ghost use Rattle.std.specs.Prelude.{◌≡◌};
ghost use Rattle.fault.specs.Faults.{number, fault, raise, up};

mod numbers;

pub use numbers::Foreign;

// The rule that was broken. `number` gives the number of each.
#[derive(Clone, Copy, PartialEq, Eq, Debug)]
pub enum Rule {
    // a fixed field lacks bytes
    Truncated,
    // a length passes the end, or a varbit has too few bytes
    Overrun,
    // bytes remain
    Trailing,
    // a count, a dimension or a key's length is below 0
    Negative,
    // the product of an array's dimensions is above 2,147,483,647
    Product,
    // the bytes are not UTF-8
    NotText,
    // a mask is above its family's 32 or 128
    Mask,
    // the number of octets is not the family's 4 or 16
    Octets,
    // an address family is neither 2 nor 3
    Family,
    // the item is not there
    Missing,
    // a part or a buffer is shorter than needed
    NoRoom,
    // a count or a payload is above 2,147,483,647
    TooGreat,
    // a dimension is negative, or the product too great or unequal to the items
    Dimensions,
    // the number of bit bytes is not the bit count's
    BitBytes,
    // a place passes its pool
    OutsidePool,
    // all 64 rows of a layer's table are taken
    TableFull,
    // an hstore key is absent
    AbsentKey,
    // a rule of another implementation
    Other(Foreign),
}

impl Rule {
    // The number under which a fault is reported.
    pub fn number(self) -> u8
        ensures { result ≡ number self }
    {
        match self {
            Rule::Truncated => 1,
            Rule::Overrun => 2,
            Rule::Trailing => 3,
            Rule::Negative => 4,
            Rule::Product => 5,
            Rule::NotText => 6,
            Rule::Mask => 7,
            Rule::Octets => 8,
            Rule::Family => 9,
            Rule::Missing => 10,
            Rule::NoRoom => 11,
            Rule::TooGreat => 12,
            Rule::Dimensions => 13,
            Rule::BitBytes => 14,
            Rule::OutsidePool => 15,
            Rule::TableFull => 16,
            Rule::AbsentKey => 17,
            Rule::Other(foreign) => foreign.number(),
        }
    }
}

// A broken rule, its place and its level: how many levels below the call it was met.
#[derive(Clone, Copy, PartialEq, Eq, Debug)]
pub struct Fault {
    pub rule: Rule,
    pub place: usize,
    pub level: u8,
}

impl Fault {
    // A fault of the call itself.
    pub fn new(rule: Rule, place: usize) -> Fault
        ensures { result ≡ fault rule place }
    {
        Fault {
            rule,
            place,
            level: 0,
        }
    }

    // The same fault and place, one level further down.
    pub fn raised(self) -> Fault
        ensures { result ≡ raise self }
    {
        Fault {
            level: self.level.saturating_add(1),
            ..self
        }
    }

    // The fault as it is seen from the level above, where its bytes begin at `start`.
    pub fn up(self, start: usize) -> Fault
        ensures { result ≡ up start self }
    {
        Fault {
            place: start.saturating_add(self.place),
            ..self.raised()
        }
    }
}
