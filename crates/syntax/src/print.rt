//! Printing, each to the end of what is there. For want of memory a call fails, and only a beginning
//! of the text may have been added.
ghost use Rattle.std.specs.Prelude.{◌≡◌, ◌<◌, ◌++◌, decimal, OnOk};
ghost use Rattle.syntax.specs.Parsed.{ReadsBack};
ghost use Rattle.syntax.specs.Printed.{digit, hex, fault_text};

use fault::Fault;
use std::alloc::AllocError;

// Two hexadecimal digits for each byte.
pub fn push_hex(out: &mut Vec<u8>, bytes: &[u8]) -> Result<(), AllocError>
    ensures added { OnOk result (out.new.items ≡ out.old.items ++ hex bytes.now) }
    ensures reads_back { ReadsBack bytes.now }
{
    for b in bytes {
        out.push(hex_digit(*b / 16))?;
        out.push(hex_digit(*b % 16))?;
    }
    Ok(())
}

// The digit of a number below 16.
fn hex_digit(d: u8) -> u8
    requires { d < 16 }
    ensures { result ≡ digit d }
{
    if d < 10 { b'0' + d } else { b'a' + (d - 10) }
}

// A number in decimal digits, with no leading zero.
pub fn push_decimal(out: &mut Vec<u8>, n: u64) -> Result<(), AllocError>
    ensures { OnOk result (out.new.items ≡ out.old.items ++ decimal n) }
{
    if n >= 10 {
        push_decimal(out, n / 10)?;
    }
    out.push(b'0' + (n % 10) as u8)?;
    Ok(())
}

// A fault as NUMBER@PLACE/LEVEL.
pub fn push_fault(out: &mut Vec<u8>, fault: Fault) -> Result<(), AllocError>
    ensures { OnOk result (out.new.items ≡ out.old.items ++ fault_text fault) }
{
    push_decimal(out, u64::from(fault.rule.number()))?;
    out.push(b'@')?;
    push_decimal(out, fault.place as u64)?;
    out.push(b'/')?;
    push_decimal(out, u64::from(fault.level))
}
