ghost use Rattle.std.specs.Prelude.{◌≡◌, ◌<◌};
ghost use Rattle.rv_model.specs.declared.limits.TheConstants.{A0, REGISTER_COUNT, SP};

use crate::{A0, SP};

/// A register, by its number: 0 to 31 (RISC-V unprivileged specification, "Programmers' Model for
/// Base Integer ISA").
#[derive(Clone, Copy, Debug, PartialEq, Eq)]
pub struct Register {
    pub number: u8,
    ghost within: { number < REGISTER_COUNT },
}

impl Register {
    /// x0, which reads 0 and ignores what is written to it.
    pub fn zero() -> Register
        ensures { result.number ≡ 0 }
    {
        Register { number: 0 }
    }

    /// The stack pointer.
    pub fn sp() -> Register
        ensures { result.number ≡ SP }
    {
        Register { number: SP }
    }

    /// The first argument of a call, and its answer.
    pub fn a0() -> Register
        ensures { result.number ≡ A0 }
    {
        Register { number: A0 }
    }
}
