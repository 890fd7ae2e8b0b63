//! Laws of the language, each the contract of a function that does nothing.
ghost use Rattle.std.specs.Prelude.{ℕ, List, ◌⊎◌};
ghost use Rattle.ce_script.specs.Bounds.{IsWithinLimits};
ghost use Rattle.ce_script.specs.Scripts.{HasFault, IsOneScript, IsScript};
ghost use Rattle.ce_script.specs.declared.script.Script.{Script};

/// Every text has a first fault or is exactly one script, and none is both.
#[tactic(auto, using(crate::proofs::OneScript::exclusive))]
pub fn grammar_law()
    ensures decided { (text : List ℕ) → HasFault text ⊎ IsOneScript text }
    ensures exclusive { (text : List ℕ) (script : Script) → HasFault text → ¬ IsScript text script }
{}

/// A script's dimension and the numbers of its users and images are within a machine's limits. The
/// names of its users all differ, and so do those of its images. Its commands speak of its users
/// and images alone and keep the limits, and without a machine it says nothing.
pub fn limits_law()
    ensures { (text : List ℕ) (script : Script) → IsScript text script → IsWithinLimits script }
{}
