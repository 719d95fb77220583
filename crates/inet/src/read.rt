//! Reading a network address.
ghost use Rattle.std.specs.Prelude.{◌≡◌, ◌≤◌, length};
ghost use Rattle.inet.specs.Recv.{inet_recv, mask_of};
ghost use Rattle.inet.specs.Laws.{LaidOut};

use crate::address::{Inet, IpAddr};
use fault::{Fault, Rule};
use wire::read::read_end;
use wire::word::Word;

// The address and mask that the bytes are. The third byte is ignored.
pub fn inet_from_sql(buf: &[u8]) -> Result<Inet, Fault>
    ensures answer { result ≡ inet_recv buf.now }
    ensures layout { LaidOut buf.now }
{
    if buf.len() < 4 {
        return Err(Fault::new(Rule::Truncated, buf.len()));
    }
    // The families by the numbers of the format, which stand here and in `IpAddr::family` alone.
    match buf[0] {
        2 => {
            let netmask = read_netmask(buf, 32, 4)?;
            let addr = u32::read(buf, 4)?;
            Ok(Inet::new(IpAddr::V4(addr), netmask))
        }
        3 => {
            let netmask = read_netmask(buf, 128, 16)?;
            let high = u64::read(buf, 4)?;
            let low = u64::read(buf, 12)?;
            Ok(Inet::new(IpAddr::V6(high, low), netmask))
        }
        _ => Err(Fault::new(Rule::Family, 0)),
    }
}

// The mask of a family with masks up to `widest` and `count` octets, all of which are there, with
// nothing behind them.
fn read_netmask(buf: &[u8], widest: u8, count: u8) -> Result<u8, Fault>
    requires { 4 ≤ length buf.now }
    ensures { result ≡ mask_of widest count buf.now }
{
    if buf[1] > widest {
        return Err(Fault::new(Rule::Mask, 1));
    }
    if buf[3] != count {
        return Err(Fault::new(Rule::Octets, 3));
    }
    let end = 4 + count as usize;
    if buf.len() < end {
        return Err(Fault::new(Rule::Truncated, 4));
    }
    read_end(buf, end)?;
    Ok(buf[1])
}
