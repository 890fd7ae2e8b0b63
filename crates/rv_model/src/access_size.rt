ghost use Rattle.std.specs.Prelude.{◌≡◌};
ghost use Rattle.rv_model.specs.declared.limits.TheConstants.{WORD_SIZE};
ghost use Rattle.rv_model.specs.Exec.{IsAccessSize};
ghost use Rattle.rv_model.specs.Sizes.{IsAccessSize-prop};

use crate::limits::WORD_SIZE;

/// How many bytes a load or a store moves: 1, 2 or 4 (RISC-V unprivileged specification, "Load and
/// Store Instructions").
#[derive(Clone, Copy, Debug, PartialEq, Eq)]
pub struct AccessSize {
    pub bytes: u32,
    ghost is_access_size: { IsAccessSize bytes } by { IsAccessSize-prop },
}

impl AccessSize {
    /// One byte.
    pub fn byte() -> AccessSize
        ensures { result.bytes ≡ 1 }
    {
        AccessSize { bytes: 1 }
    }

    /// A half-word.
    pub fn half() -> AccessSize
        ensures { result.bytes ≡ 2 }
    {
        AccessSize { bytes: 2 }
    }

    /// A word.
    pub fn word() -> AccessSize
        ensures { result.bytes ≡ WORD_SIZE }
    {
        AccessSize { bytes: WORD_SIZE }
    }
}
