//! The arithmetic of Julia's `Int64` (Julia 1.10 manual, "Integers and Floating-Point Numbers" and
//! "Mathematical Operations and Elementary Functions").
//!
//! Each result is stated on whole numbers, without bounds: a sum, a difference, a product or a power
//! is the exact one, less the multiple of 2^64 that brings it into the range of an `i64`.
#![tactic(auto)]

use thiserror::Error;

mod arithmetic;
mod bits;
mod division;
mod powers;
mod shifts;

pub use arithmetic::{add, mul, sub, wrap_word};
pub use bits::{and, complement, or, xor};
pub use division::{div, mod_, rem};
pub use powers::pow;
pub use shifts::{shl, shr, ushr};

/// Why an operation on two numbers has no result.
#[derive(Clone, Copy, Debug, PartialEq, Eq, Error)]
pub enum NumFault {
    /// A division by 0, or of the least value by -1.
    #[error("division by zero or overflow of a quotient")]
    Divide,
    /// A power with a negative exponent, of another base than 1 and -1.
    #[error("negative exponent")]
    Domain,
}
