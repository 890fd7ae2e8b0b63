//! A script within its limits.
ghost use Rattle.ce_script.specs.Bounds.{IsWithinLimits};
ghost use Rattle.ce_script.specs.Limited.{IsWithinLimits-prop};

use crate::script::Script;

/// A script that keeps the limits of a script.
#[derive(Debug, Drop)]
pub struct LimitedScript {
    /// What it says.
    pub script: Script,
    ghost within: { IsWithinLimits script } by { IsWithinLimits-prop },
}
