//! What an object is asked for, so that a book can keep it.
ghost use Rattle.std.specs.Prelude.{◌≡◌, ◌+◌, ◌<◌, Bool, List, [], ◌∷◌, ◌++◌, length, IfOk, IfErr};
ghost use Rattle.ce_lock.specs.declared.limits.TheConstants.{HISTORY_LIMIT};
ghost use Rattle.ce_lock.specs.declared.who.Who.{Who};
ghost use Rattle.ce_lock.specs.Entries.{IsForeignEntry};

use crate::who::Who;
use ce_model::NoMemory;
use std::alloc::Global;

/// An object that stores its history: each call that it answers adds one entry.
pub trait Kept: Sized {
    /// What is asked of the object.
    type Call;

    /// What it answers.
    type Reply;

    /// What it keeps of a call and its answer.
    type Entry;

    // The type of what no call changes, as sizes that were chosen when the object was made.
    ghost Fixed: { Type 0 };

    // What no call changes.
    ghost fixed: { Self → Fixed };

    // The entries so far, the oldest first.
    ghost history: { Self → List Self.Entry };

    // Who made the call of an entry.
    ghost whose: { Self.Entry → Who };

    // The call may be made only while all other actors of its family are in.
    ghost alone: { Self.Call → Bool };

    // The entry is one of such a call.
    ghost alone_entry: { Self.Entry → Bool };

    // The history can have come about.
    ghost lawful: { Fixed → List Self.Entry → Type 0 };

    // After this history the actor may make this call.
    ghost fits: { Fixed → List Self.Entry → Who → Self.Call → Type 0 };

    // After this history the entry is the one of the actor's call, and the reply is what the call
    // gets.
    ghost stands: { Fixed → List Self.Entry → Self.Entry → Who → Self.Call → Self.Reply → Type 0 };

    /// Answers one call of `who`, and adds its entry to the history. With no memory for it, nothing
    /// changes and the call comes back.
    fn act(
        &mut self,
        alloc: Global,
        who: Who,
        call: Self::Call,
    ) -> Result<Self::Reply, (Self::Call, NoMemory)>
        requires { fits (fixed self.old) (history self.old) who call }
        ensures fixed { fixed self.new ≡ fixed self.old }
        ensures grows { IfOk result (λ reply. (entry : Self.Entry)
            × (history self.new ≡ history self.old ++ entry ∷ [])
            × stands (fixed self.old) (history self.old) entry who call reply) }
        ensures lawful { IfOk result (λ _. lawful (fixed self.old) (history self.old)
            → lawful (fixed self.old) (history self.new)) }
        ensures few { IfOk result (λ _. length (history self.new) < HISTORY_LIMIT) }
        ensures refused { IfErr result (λ refusal. (self.new ≡ self.old) × (refusal.0 ≡ call)) };

    // The empty history is lawful.
    ghost empty_is_lawful: { (f : Fixed) → lawful f [] };

    // A prefix of a lawful history is lawful.
    ghost prefix_is_lawful: { (f : Fixed) (front rest : List Self.Entry)
        → lawful f (front ++ rest) → lawful f front };

    // An entry is that of the actor who called, and alone where the call is.
    ghost stands_for: { (f : Fixed) (past : List Self.Entry) (entry : Self.Entry) (who : Who)
        (call : Self.Call) (reply : Self.Reply)
        → stands f past entry who call reply
        → (whose entry ≡ who) × (alone_entry entry ≡ alone call) };

    // What fits still fits after one more entry of another family, or of another actor that is not
    // alone.
    ghost still_fits: { (f : Fixed) (past : List Self.Entry) (entry : Self.Entry) (who : Who)
        (call : Self.Call)
        → lawful f (past ++ entry ∷ []) → fits f past who call
        → IsForeignEntry whose alone_entry who entry → fits f (past ++ entry ∷ []) who call };
}
