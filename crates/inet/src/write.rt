//! Writing a network address.
ghost use Rattle.std.specs.Prelude.{◌≡◌, ◌+◌, ◌≤◌, length, Ok};
ghost use Rattle.wire.specs.Bytes.{put};
ghost use Rattle.wire.specs.Encoding.{told, laid, room_for};
ghost use Rattle.inet.specs.Layout.{octets, inet_layout};
ghost use Rattle.inet.specs.Laws.{ReadsBack, Distinct};

use crate::address::IpAddr;
use fault::{Fault, Rule};
use wire::word::Word;
use wire::write::put_bytes;

// Writes an address and its mask to the start of the part, and answers the number of bytes. The
// mask is written as it is, whatever the family.
pub fn inet_to_sql(addr: IpAddr, netmask: u8, part: &mut [u8]) -> Result<usize, Fault>
    ensures answer { result ≡ told (room_for (length part.old) (Ok (inet_layout addr netmask))) }
    ensures after { part.new ≡ laid (room_for (length part.old) (Ok (inet_layout addr netmask))) part.old }
    ensures reads_back { ReadsBack addr netmask }
    ensures distinct { Distinct addr netmask }
{
    let count = addr.octet_count();
    if part.len() < 4 + count as usize {
        return Err(Fault::new(Rule::NoRoom, 0));
    }
    put_bytes(part, 0, &[addr.family(), netmask, 0, count])?;
    put_octets(part, addr)
}

// Writes the octets behind the four bytes of the head, and answers the place behind them.
fn put_octets(part: &mut [u8], addr: IpAddr) -> Result<usize, Fault>
    requires { 4 + length (octets addr) ≤ length part.old }
    ensures answer { result ≡ Ok (4 + length (octets addr)) }
    ensures after { part.new ≡ put 4 (octets addr) part.old }
{
    match addr {
        IpAddr::V4(a) => u32::put(part, 4, a),
        IpAddr::V6(high, low) => {
            let at = u64::put(part, 4, high)?;
            u64::put(part, at, low)
        }
    }
}
