// The seven rules (4.1 to 4.9) as code over one constraint's part of the circuit bytes and the standing's arrays.

#![tactic(auto)]

pub mod added;
mod arith;
pub mod constraint;
pub mod digits;
pub mod form;
pub mod gathered;
mod reduced;
pub mod rows;
pub mod standing;
pub mod sums;
pub mod view;
