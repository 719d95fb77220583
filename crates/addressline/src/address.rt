//! An address as a word: its version, its octets and its mask.
ghost use Rattle.std.specs.Prelude.{◌≡◌, ◌++◌, IfOk, OnOk};
ghost use Rattle.inet.specs.Layout.{octets};
ghost use Rattle.syntax.specs.Parsed.{split_at};
ghost use Rattle.syntax.specs.Printed.{hex};
ghost use Rattle.addressline.specs.Addresses.{version, address_text, address_of, address_parts, inet_in};

use inet::address::{Inet, IpAddr};
use std::alloc::{AllocError, Global};
use syntax::parse::{parse_hex, parse_number, split_at_first};
use syntax::print::{push_decimal, push_hex};
use wire::word::Word;

// Prints an address and its mask.
pub fn push_inet(out: &mut Vec<u8>, inet: Inet) -> Result<(), AllocError>
    ensures { OnOk result (out.new.items ≡ out.old.items ++ address_text inet) }
{
    push_address(out, inet.addr())?;
    out.push(b'/')?;
    push_decimal(out, u64::from(inet.netmask()))
}

fn push_address(out: &mut Vec<u8>, addr: IpAddr) -> Result<(), AllocError>
    ensures { OnOk result (out.new.items ≡ out.old.items ++ (version addr ++ hex (octets addr))) }
{
    match addr {
        IpAddr::V4(bits) => {
            out.extend_from_slice(b"v4:")?;
            push_hex(out, &bits.to_be_bytes())
        }
        IpAddr::V6(high, low) => {
            out.extend_from_slice(b"v6:")?;
            push_hex(out, &high.to_be_bytes())?;
            push_hex(out, &low.to_be_bytes())
        }
    }
}

// The address and mask that a word is.
pub fn parse_inet(heap: Global, word: &[u8]) -> Result<Option<Inet>, AllocError>
    ensures { IfOk result (λ o. o ≡ inet_in word.now) }
{
    let Some((address, mask)) = split_at_first(word, b'/') else {
        return Ok(None);
    };
    let Some(addr) = parse_address(heap, address)? else {
        return Ok(None);
    };
    let Some(netmask) = parse_number(mask, 255) else {
        return Ok(None);
    };
    Ok(Some(Inet::new(addr, netmask as u8)))
}

fn parse_address(heap: Global, word: &[u8]) -> Result<Option<IpAddr>, AllocError>
    ensures { IfOk result (λ o. o ≡ address_parts (split_at 58 word.now)) }
{
    let Some((version, digits)) = split_at_first(word, b':') else {
        return Ok(None);
    };
    let Some(octets) = parse_hex(heap, digits)? else {
        return Ok(None);
    };
    Ok(from_octets(version, &octets))
}

// The address of a version with these octets.
fn from_octets(name: &[u8], bytes: &[u8]) -> Option<IpAddr>
    ensures { result ≡ address_of name.now bytes.now }
{
    match (name, bytes.len()) {
        (b"v4", 4) => Some(IpAddr::V4(u32::read(bytes, 0).ok()?)),
        (b"v6", 16) => {
            let high = u64::read(bytes, 0).ok()?;
            let low = u64::read(bytes, 8).ok()?;
            Some(IpAddr::V6(high, low))
        }
        _ => None,
    }
}
