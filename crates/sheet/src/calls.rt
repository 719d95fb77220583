//! The calls that fill a sheet. Each appends one column under an OID, or refuses and changes nothing.
ghost use Rattle.std.specs.Prelude.{◌≡◌};
ghost use Rattle.content.specs.Calls as Calls;
ghost use Rattle.texts.specs.Places.{pool_pair};
ghost use Rattle.sheet.specs.Filing.{Did};

use crate::sheet::Sheet;
use array::dimension::ArrayDimension;
use content::array_content::ArrayContent;
use content::formats::{BoxContent, InetContent, PointContent, VarbitContent};
use content::item::{Chosen, Nothing};
use content::lists::{HstoreContent, PathContent};
use content::one::One;
use content::range_content::{EmptyRange, RangeContent};
use double::point::{Box, Point};
use fault::Fault;
use hstore::entry::HstoreEntry;
use inet::address::IpAddr;
use range::bound::RangeBound;
use serializer::serializer::Serializer;
use texts::pools::Pools;
use wire::oid::Oid;

impl Sheet {
    // NULL.
    pub fn null(&mut self, buffer: &mut [u8], oid: Oid) -> Result<(), Fault>
        ensures { Did self.old buffer.old oid Calls.null result self.new buffer.new }
    {
        self.file(buffer, oid, &Nothing)
    }

    // Item `k` of a serializer.
    pub fn column<S: Serializer>(
        &mut self,
        buffer: &mut [u8],
        oid: Oid,
        serializer: &S,
        k: usize,
    ) -> Result<(), Fault>
        ensures { Did self.old buffer.old oid (Calls.column (S.Serializer.items serializer.now) k) result self.new buffer.new }
    {
        self.file(
            buffer,
            oid,
            &Chosen {
                inner: serializer,
                number: k,
            },
        )
    }

    // All items of a serializer as an array with these dimensions, which must fit them.
    pub fn array<S: Serializer>(
        &mut self,
        buffer: &mut [u8],
        oid: Oid,
        element: Oid,
        dims: &[ArrayDimension],
        serializer: &S,
    ) -> Result<(), Fault>
        ensures { Did self.old buffer.old oid (Calls.array element dims.now (S.Serializer.items serializer.now)) result self.new buffer.new }
    {
        let encoded = ArrayContent {
            dims,
            oid: element,
            serializer,
        };
        self.file(buffer, oid, &One { encoded })
    }

    // A range whose bounds name items of a serializer.
    pub fn range<S: Serializer>(
        &mut self,
        buffer: &mut [u8],
        oid: Oid,
        lower: RangeBound<usize>,
        upper: RangeBound<usize>,
        serializer: &S,
    ) -> Result<(), Fault>
        ensures { Did self.old buffer.old oid (Calls.range lower upper (S.Serializer.items serializer.now)) result self.new buffer.new }
    {
        let encoded = RangeContent {
            lower,
            upper,
            serializer,
        };
        self.file(buffer, oid, &One { encoded })
    }

    pub fn empty_range(&mut self, buffer: &mut [u8], oid: Oid) -> Result<(), Fault>
        ensures { Did self.old buffer.old oid Calls.empty_range result self.new buffer.new }
    {
        let encoded = EmptyRange;
        self.file(buffer, oid, &One { encoded })
    }

    // Entries by the places of their keys and values.
    pub fn hstore(
        &mut self,
        buffer: &mut [u8],
        oid: Oid,
        pools: Pools<'_>,
        entries: &[HstoreEntry],
    ) -> Result<(), Fault>
        ensures { Did self.old buffer.old oid (Calls.hstore (pool_pair pools.entry) entries.now) result self.new buffer.new }
    {
        let encoded = HstoreContent { pools, entries };
        self.file(buffer, oid, &One { encoded })
    }

    // A bit count and one byte for each eight bits begun.
    pub fn varbit(
        &mut self,
        buffer: &mut [u8],
        oid: Oid,
        len: usize,
        bytes: &[u8],
    ) -> Result<(), Fault>
        ensures { Did self.old buffer.old oid (Calls.varbit len bytes.now) result self.new buffer.new }
    {
        let encoded = VarbitContent { len, bytes };
        self.file(buffer, oid, &One { encoded })
    }

    pub fn point(&mut self, buffer: &mut [u8], oid: Oid, point: Point) -> Result<(), Fault>
        ensures { Did self.old buffer.old oid (Calls.point point) result self.new buffer.new }
    {
        let encoded = PointContent { point };
        self.file(buffer, oid, &One { encoded })
    }

    // A box, its corners as they are given.
    pub fn boxed(&mut self, buffer: &mut [u8], oid: Oid, corners: Box) -> Result<(), Fault>
        ensures { Did self.old buffer.old oid (Calls.box corners) result self.new buffer.new }
    {
        let encoded = BoxContent { corners };
        self.file(buffer, oid, &One { encoded })
    }

    pub fn path(
        &mut self,
        buffer: &mut [u8],
        oid: Oid,
        closed: bool,
        points: &[Point],
    ) -> Result<(), Fault>
        ensures { Did self.old buffer.old oid (Calls.path closed points.now) result self.new buffer.new }
    {
        let encoded = PathContent { closed, points };
        self.file(buffer, oid, &One { encoded })
    }

    // An address, whose mask must be one of its family.
    pub fn inet(
        &mut self,
        buffer: &mut [u8],
        oid: Oid,
        addr: IpAddr,
        netmask: u8,
    ) -> Result<(), Fault>
        ensures { Did self.old buffer.old oid (Calls.inet addr netmask) result self.new buffer.new }
    {
        let encoded = InetContent { addr, netmask };
        self.file(buffer, oid, &One { encoded })
    }
}
