//! Validators: what accepts bytes or refuses them with one fault, and the layers over any of them.
#![tactic(auto)]

pub mod array_of;
pub mod range_of;
pub mod validator;
