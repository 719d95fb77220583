//! The words that stand in lists.
ghost use Rattle.std.specs.Prelude.{◌≡◌, ◌^◌, ◌≤◌, Some};
ghost use Rattle.syntax.specs.Parsed.{split_at};
ghost use Rattle.listing.specs.Words.{negated, null_or, parts_in, pool_in, signed_in};

use crate::list::Notation;
use std::marker::PhantomData;
use syntax::parse::{parse_number, split_at_first};
use texts::place::{Pool, Span};

// NULL, or a word of another notation.
pub struct Nullable<N> {
    notation: PhantomData<N>,
}

impl<N: Notation> Notation for Nullable<N> {
    type Item = Option<N::Item>;

    ghost reads = { null_or N.Notation.reads };

    fn parse(word: &[u8]) -> Option<Option<N::Item>> {
        match word {
            b"NULL" => Some(None),
            _ => N::parse(word).map(Some),
        }
    }
}

// A signed number of four bytes.
pub struct Int4Word;

impl Notation for Int4Word {
    type Item = i32;

    ghost reads = { signed_in 31 };

    fn parse(word: &[u8]) -> Option<i32> {
        parse_int4(word)
    }
}

// A signed number of eight bytes.
pub struct Int8Word;

impl Notation for Int8Word {
    type Item = i64;

    ghost reads = { signed_in 63 };

    fn parse(word: &[u8]) -> Option<i64> {
        parse_signed(word, 63)
    }
}

// The elements of an array of int4 or int8.
pub type Int4Notation = Nullable<Int4Word>;

pub type Int8Notation = Nullable<Int8Word>;

// A signed number of four bytes.
pub fn parse_int4(word: &[u8]) -> Option<i32>
    ensures { result ≡ signed_in 31 word.now }
{
    Some(parse_signed(word, 31)? as i32)
}

// A signed number with so many bits beside its sign.
fn parse_signed(word: &[u8], bits: u32) -> Option<i64>
    requires { bits ≤ 63 }
    ensures { result ≡ signed_in bits word.now }
{
    match word {
        [b'-', digits @ ..] => Some(negate(parse_number(digits, 1 << bits)?)),
        _ => Some(parse_number(word, (1 << bits) - 1)? as i64),
    }
}

// Minus the number.
fn negate(n: u64) -> i64
    requires { n ≤ 2 ^ 63 }
    ensures { Some result ≡ negated (Some n) }
{
    if n == 0 { 0 } else { -1 - (n - 1) as i64 }
}

// A part of a pool.
pub struct SpanWord;

impl Notation for SpanWord {
    type Item = Span;

    ghost reads = { λ w. parts_in (split_at 58 w) };

    fn parse(word: &[u8]) -> Option<Span> {
        parse_span(word)
    }
}

// A place of a texts source.
pub type PlaceNotation = Nullable<SpanWord>;

// POOL:START:LENGTH
fn parse_span(word: &[u8]) -> Option<Span>
    ensures { result ≡ parts_in (split_at 58 word.now) }
{
    let (pool, span) = split_at_first(word, b':')?;
    let (start, length) = split_at_first(span, b':')?;
    Some(Span {
        pool: parse_pool(pool)?,
        start: parse_number(start, u64::MAX)? as usize,
        length: parse_number(length, u64::MAX)? as usize,
    })
}

// The pool of a letter.
fn parse_pool(word: &[u8]) -> Option<Pool>
    ensures { result ≡ pool_in word.now }
{
    match word {
        b"h" => Some(Pool::House),
        b"s" => Some(Pool::Supplier),
        _ => None,
    }
}
