//! UTF-8 by RFC 3629.
#![tactic(auto)]

ghost use Rattle.std.specs.Prelude.{◌≡◌, true, ◌↔◌, is_ok};
ghost use Rattle.text.specs.Recv.{text_recv, text_end, told_text};
ghost use Rattle.text.specs.Utf8.{Text, Longest};

use fault::{Fault, Rule};

mod character;

use character::whole_characters;

// The bytes as text: accepted exactly when they are UTF-8, else rule 6 at the first byte of the
// first bad character.
pub fn text_from_sql(bytes: &[u8]) -> Result<&[u8], Fault>
    ensures answer { told_text result ≡ text_recv bytes.now }
    ensures exactly { is_ok result ≡ true ↔ Text bytes.now }
    ensures place { Longest bytes.now (text_end bytes.now) }
{
    let end = whole_characters(bytes);
    if end < bytes.len() {
        return Err(Fault::new(Rule::NotText, end));
    }
    Ok(bytes)
}

#[cfg(test)]
mod tests {
    use super::*;

    // Where the bytes are refused, or their length.
    fn end(bytes: &[u8]) -> usize {
        match text_from_sql(bytes) {
            Ok(text) => text.len(),
            Err(fault) => fault.place,
        }
    }

    #[test]
    fn ends(rt: HostRuntime) {
        let cases: [(&[u8], usize); 5] = [
            // é
            (&[0xC3, 0xA9], 2),
            // NUL in two octets
            (&[0x61, 0xC0, 0x80], 1),
            // the surrogate D800
            (&[0x61, 0xED, 0xA0, 0x80], 1),
            // 110000
            (&[0xF4, 0x90, 0x80, 0x80], 0),
            // the euro sign without its last octet
            (&[0x61, 0x62, 0xE2, 0x82], 2),
        ];
        for (bytes, place) in cases {
            assert!(rt; end(bytes) == place);
        }
    }
}
