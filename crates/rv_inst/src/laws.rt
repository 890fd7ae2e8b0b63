//! Laws of the table of instructions, each the contract of a function that does nothing.
ghost use Rattle.std.specs.Prelude.{◌≡◌, ◌<◌, ◌≤◌, ◌^◌, ℕ, length, filter, All, IfSome, IsTrue};
ghost use Rattle.rv_model.specs.Words.{has_fixed_fields, table, instruction_of};
ghost use Rattle.rv_inst.specs.Valid.{IsValid};
ghost use Rattle.rv_model.specs.declared.inst.Inst.{Inst};

/// The table is unambiguous: a word matches at most one row.
#[tactic(auto, using(crate::proofs::Unambiguous::table_at_most_one))]
pub fn table_is_unambiguous()
    ensures { (word : ℕ) → length (filter (has_fixed_fields word) table) ≤ 1 }
{}

/// A word that matches a row is that row's instruction, and a word that matches none is no
/// instruction.
#[tactic(auto, using(crate::proofs::Unambiguous::decided))]
pub fn table_decides()
    ensures matched { (word : ℕ)
        → All (λ row. IsTrue (has_fixed_fields word row)
        → instruction_of word ≡ Some (row.meaning word)) table }
    ensures unmatched { (word : ℕ) → All (λ row. ¬ IsTrue (has_fixed_fields word row)) table
        → instruction_of word ≡ None }
{}

/// Encoding is unambiguous: no two words are decoded to one instruction.
#[tactic(auto, using(crate::proofs::Joined::one_word))]
pub fn words_are_unique()
    ensures { (word other : ℕ) (inst : Inst) → word < 2 ^ 32 → other < 2 ^ 32
        → instruction_of word ≡ Some inst → instruction_of other ≡ Some inst → word ≡ other }
{}

/// What a word is decoded to is an instruction that a word can hold.
#[tactic(auto, using(crate::proofs::Ranges::instruction_of_valid))]
pub fn instructions_are_valid()
    ensures { (word : ℕ) → word < 2 ^ 32 → IfSome (instruction_of word) IsValid }
{}
