//! Big-endian words of any width, read and written at an offset.
ghost use Rattle.std.specs.Prelude.{◌≡◌, ℕ, List, Result};
ghost use Rattle.std.specs.Int.{w8, w64};
ghost use Rattle.std.proofs.Common.{of_z};
ghost use Rattle.fault.specs.declared.Fault.{Fault};
ghost use Rattle.wire.specs.Encoding.{told_at, laid_at};
ghost use Rattle.wire.specs.Words.{be, int, octets_at, u8_at, i8_at, u32_at, i32_at, u64_at, i64_at};

use crate::write::put_bytes;
use fault::{Fault, Rule};

// A number of a fixed width, its most significant byte first.
pub trait Word: Copy {
    // How many bytes it has.
    ghost WIDTH: { ℕ };

    const WIDTH: usize;

    // The word that stands at a place, or a fault at its start.
    ghost word_at: { List ℕ → ℕ → Result Self Fault };

    // Its bytes.
    ghost octets: { Self → List ℕ };

    // The word at `at`: rule 1 there where bytes lack.
    fn read(buf: &[u8], at: usize) -> Result<Self, Fault>
        ensures { result ≡ word_at buf.now at };

    // Writes the word at `at`, and answers the place behind it; rule 11 at 0 where it does not fit.
    fn put(part: &mut [u8], at: usize, word: Self) -> Result<usize, Fault>
        ensures answer { result ≡ told_at at (octets word) part.old }
        ensures after { part.new ≡ laid_at at (octets word) part.old };
}

// The N bytes at `at`.
fn read_octets<const N: usize>(buf: &[u8], at: usize) -> Result<[u8; N], Fault>
    ensures { result ≡ octets_at N buf.now at }
{
    if buf.len() < at {
        return Err(Fault::new(Rule::Truncated, at));
    }
    match buf[at..].first_chunk() {
        Some(octets) => Ok(*octets),
        None => Err(Fault::new(Rule::Truncated, at)),
    }
}

impl Word for u8 {
    ghost WIDTH = { 1 };

    const WIDTH: usize = 1;

    ghost word_at = { u8_at };

    ghost octets = { be 1 };

    fn read(buf: &[u8], at: usize) -> Result<u8, Fault> {
        Ok(u8::from_be_bytes(read_octets(buf, at)?))
    }

    fn put(part: &mut [u8], at: usize, byte: u8) -> Result<usize, Fault> {
        put_bytes(part, at, &byte.to_be_bytes())
    }
}

impl Word for u32 {
    ghost WIDTH = { 4 };

    const WIDTH: usize = 4;

    ghost word_at = { u32_at };

    ghost octets = { be 4 };

    fn read(buf: &[u8], at: usize) -> Result<u32, Fault> {
        Ok(u32::from_be_bytes(read_octets(buf, at)?))
    }

    fn put(part: &mut [u8], at: usize, word: u32) -> Result<usize, Fault> {
        put_bytes(part, at, &word.to_be_bytes())
    }
}

impl Word for u64 {
    ghost WIDTH = { 8 };

    const WIDTH: usize = 8;

    ghost word_at = { u64_at };

    ghost octets = { be 8 };

    fn read(buf: &[u8], at: usize) -> Result<u64, Fault> {
        Ok(u64::from_be_bytes(read_octets(buf, at)?))
    }

    fn put(part: &mut [u8], at: usize, wide: u64) -> Result<usize, Fault> {
        put_bytes(part, at, &wide.to_be_bytes())
    }
}

impl Word for i8 {
    ghost WIDTH = { 1 };

    const WIDTH: usize = 1;

    ghost word_at = { i8_at };

    ghost octets = { λ z. be 1 (of_z w8 z) };

    fn read(buf: &[u8], at: usize) -> Result<i8, Fault> {
        Ok(u8::read(buf, at)?.cast_signed())
    }

    fn put(part: &mut [u8], at: usize, word: i8) -> Result<usize, Fault> {
        u8::put(part, at, word.cast_unsigned())
    }
}

impl Word for i32 {
    ghost WIDTH = { 4 };

    const WIDTH: usize = 4;

    ghost word_at = { i32_at };

    ghost octets = { int };

    fn read(buf: &[u8], at: usize) -> Result<i32, Fault> {
        Ok(u32::read(buf, at)?.cast_signed())
    }

    fn put(part: &mut [u8], at: usize, word: i32) -> Result<usize, Fault> {
        u32::put(part, at, word.cast_unsigned())
    }
}

impl Word for i64 {
    ghost WIDTH = { 8 };

    const WIDTH: usize = 8;

    ghost word_at = { i64_at };

    ghost octets = { λ z. be 8 (of_z w64 z) };

    fn read(buf: &[u8], at: usize) -> Result<i64, Fault> {
        Ok(u64::read(buf, at)?.cast_signed())
    }

    fn put(part: &mut [u8], at: usize, word: i64) -> Result<usize, Fault> {
        u64::put(part, at, word.cast_unsigned())
    }
}
