//! Bit strings, points, boxes and addresses.
ghost use Rattle.std.specs.Prelude.{◌≡◌, Ok};
ghost use Rattle.geometry.specs.Layout.{point_layout, box_layout};
ghost use Rattle.content.specs.Encoders.{varbit_content, inet_content};
ghost use Rattle.content.specs.Rules.{varbit_rule, inet_rule};

use double::point::{Box, Point};
use fault::{Fault, Rule};
use geometry::write::{box_to_sql, point_to_sql};
use inet::address::IpAddr;
use inet::write::inet_to_sql;
use rows::encoded::Encoded;
use varbit::write::varbit_to_sql;

// A bit count with its bytes.
#[derive(Clone, Copy)]
pub struct VarbitContent<'a> {
    pub len: usize,
    pub bytes: &'a [u8],
}

impl<'a> Encoded for VarbitContent<'a> {
    ghost encoding = { λ v. varbit_content v.len v.bytes.now };

    fn size(&self) -> Result<usize, Fault> {
        check_bits(self.len, self.bytes.len())?;
        Ok(4 + self.bytes.len())
    }

    fn write(&self, part: &mut [u8]) -> Result<usize, Fault> {
        check_bits(self.len, self.bytes.len())?;
        varbit_to_sql(self.len, self.bytes, part)
    }
}

// One byte for each eight bits begun, else rule 14; then a bit count that fits, else rule 12.
fn check_bits(len: usize, bytes: usize) -> Result<(), Fault>
    ensures { result ≡ varbit_rule len bytes }
{
    let begun = len / 8 + usize::from(len % 8 != 0);
    if bytes != begun {
        return Err(Fault::new(Rule::BitBytes, 0));
    }
    if len > 2_147_483_647 {
        return Err(Fault::new(Rule::TooGreat, 0));
    }
    Ok(())
}

// A point.
#[derive(Clone, Copy)]
pub struct PointContent {
    pub point: Point,
}

impl Encoded for PointContent {
    ghost encoding = { λ p. Ok (point_layout p.point) };

    fn size(&self) -> Result<usize, Fault> {
        Ok(16)
    }

    fn write(&self, part: &mut [u8]) -> Result<usize, Fault> {
        point_to_sql(self.point.x(), self.point.y(), part)
    }
}

// A box.
#[derive(Clone, Copy)]
pub struct BoxContent {
    pub corners: Box,
}

impl Encoded for BoxContent {
    ghost encoding = { λ b. Ok (box_layout b.corners) };

    fn size(&self) -> Result<usize, Fault> {
        Ok(32)
    }

    fn write(&self, part: &mut [u8]) -> Result<usize, Fault> {
        let upper = self.corners.upper_right();
        let lower = self.corners.lower_left();
        box_to_sql(upper.x(), upper.y(), lower.x(), lower.y(), part)
    }
}

// An address with a mask of its family.
#[derive(Clone, Copy)]
pub struct InetContent {
    pub addr: IpAddr,
    pub netmask: u8,
}

impl Encoded for InetContent {
    ghost encoding = { λ i. inet_content i.addr i.netmask };

    fn size(&self) -> Result<usize, Fault> {
        check_mask(self.addr, self.netmask)?;
        Ok(4 + usize::from(self.addr.octet_count()))
    }

    fn write(&self, part: &mut [u8]) -> Result<usize, Fault> {
        check_mask(self.addr, self.netmask)?;
        inet_to_sql(self.addr, self.netmask, part)
    }
}

// A mask of the family: rule 7 at 0 where it is longer.
fn check_mask(addr: IpAddr, netmask: u8) -> Result<(), Fault>
    ensures { result ≡ inet_rule addr netmask }
{
    let widest = match addr {
        IpAddr::V4(_) => 32,
        IpAddr::V6(_, _) => 128,
    };
    if netmask > widest {
        return Err(Fault::new(Rule::Mask, 0));
    }
    Ok(())
}
