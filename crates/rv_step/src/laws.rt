//! Laws of a step, each the contract of a function that does nothing.
ghost use Rattle.std.specs.Prelude.{◌≡◌, ℕ, List, length};
ghost use Rattle.rv_model.specs.declared.limits.TheConstants.{WORD_SIZE};
ghost use Rattle.rv_model.specs.Exec.{step_outcome};
ghost use Rattle.rv_model.specs.Private.{private_access, private_size};
ghost use Rattle.rv_step.specs.MemoryChange.{HasChangedAtMost, memory_left};

/// A step changes at most four bytes of private memory, which stand in a row.
#[tactic(auto, using(crate::proofs::Changing::step_outcome_changes))]
pub fn step_changes_four_bytes()
    ensures { (x bytes : List ℕ) (pc : ℕ) → length bytes ≡ private_size
        → HasChangedAtMost WORD_SIZE bytes
        (memory_left bytes (step_outcome private_access x pc bytes)) }
{}
