//! Bounds and ranges.
ghost use Rattle.std.specs.Prelude.{◌≡◌};
ghost use Rattle.range.specs.Mapping.{ForBound, Mapped};

// One side of a range. In writing it holds an item's number, in reading a payload or NULL.
#[derive(Clone, Copy, PartialEq, Eq, Debug)]
pub enum RangeBound<T> {
    Inclusive(T),
    Exclusive(T),
    Unbounded,
}

impl<T> RangeBound<T> {
    // The same kind of bound, around what the function makes of its value.
    fn map<U, F: FnOnce(T) -> U>(self, f: F) -> RangeBound<U>
        requires { ForBound self (F.pre f) }
        ensures { Mapped (F.post f) self result }
    {
        match self {
            RangeBound::Inclusive(value) => RangeBound::Inclusive(f(value)),
            RangeBound::Exclusive(value) => RangeBound::Exclusive(f(value)),
            RangeBound::Unbounded => RangeBound::Unbounded,
        }
    }
}

// A bound by the same number of an item.
impl From<RangeBound<u16>> for RangeBound<usize> {
    ghost from_gives = { λ bound wide. wide ≡ bound };

    fn from(bound: RangeBound<u16>) -> RangeBound<usize> {
        bound.map(usize::from)
    }
}

// A range that was read, with the name and the cases that the crate gives it, and so no Option.
#[derive(Clone, Copy)]
pub enum Range<'a> {
    Empty,
    Nonempty(RangeBound<Option<&'a [u8]>>, RangeBound<Option<&'a [u8]>>),
}
