//! Formats that are read whole. Each validator is two lines around the reader of its format; a trait over
//! the readers would say no less for each.
ghost use Rattle.bottoms.specs.Verdicts.{int4_verdict, int8_verdict, text_verdict, point_verdict, box_verdict, varbit_verdict, inet_verdict};
ghost use Rattle.bottoms.specs.Places.{int4_within, int8_within, text_within, point_within, box_within, varbit_within, inet_within};

use fault::Fault;
use geometry::read::{box_from_sql, point_from_sql};
use inet::read::inet_from_sql;
use scalar::{int4_from_sql, int8_from_sql};
use text::text_from_sql;
use validator::validator::Validator;
use varbit::read::varbit_from_sql;

// A word of four bytes.
#[derive(Clone, Copy)]
pub struct Int4;

impl Validator for Int4 {
    ghost verdict = { λ _. int4_verdict };

    ghost within = { λ _. int4_within };

    fn validate(&self, bytes: &[u8]) -> Result<(), Fault> {
        int4_from_sql(bytes)?;
        Ok(())
    }
}

// A word of eight bytes.
#[derive(Clone, Copy)]
pub struct Int8;

impl Validator for Int8 {
    ghost verdict = { λ _. int8_verdict };

    ghost within = { λ _. int8_within };

    fn validate(&self, bytes: &[u8]) -> Result<(), Fault> {
        int8_from_sql(bytes)?;
        Ok(())
    }
}

// A text.
#[derive(Clone, Copy)]
pub struct Text;

impl Validator for Text {
    ghost verdict = { λ _. text_verdict };

    ghost within = { λ _. text_within };

    fn validate(&self, bytes: &[u8]) -> Result<(), Fault> {
        text_from_sql(bytes)?;
        Ok(())
    }
}

// A point.
#[derive(Clone, Copy)]
pub struct Point;

impl Validator for Point {
    ghost verdict = { λ _. point_verdict };

    ghost within = { λ _. point_within };

    fn validate(&self, bytes: &[u8]) -> Result<(), Fault> {
        point_from_sql(bytes)?;
        Ok(())
    }
}

// A box.
#[derive(Clone, Copy)]
pub struct Box;

impl Validator for Box {
    ghost verdict = { λ _. box_verdict };

    ghost within = { λ _. box_within };

    fn validate(&self, bytes: &[u8]) -> Result<(), Fault> {
        box_from_sql(bytes)?;
        Ok(())
    }
}

// A bit string.
#[derive(Clone, Copy)]
pub struct Varbit;

impl Validator for Varbit {
    ghost verdict = { λ _. varbit_verdict };

    ghost within = { λ _. varbit_within };

    fn validate(&self, bytes: &[u8]) -> Result<(), Fault> {
        varbit_from_sql(bytes)?;
        Ok(())
    }
}

// A network address.
#[derive(Clone, Copy)]
pub struct Inet;

impl Validator for Inet {
    ghost verdict = { λ _. inet_verdict };

    ghost within = { λ _. inet_within };

    fn validate(&self, bytes: &[u8]) -> Result<(), Fault> {
        inet_from_sql(bytes)?;
        Ok(())
    }
}
