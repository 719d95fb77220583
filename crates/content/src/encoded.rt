//! A value that one of the encoders writes, and its serializer.

pub use crate::one::One;
pub use rows::encoded::Encoded;
