//! What a process does, and why it stopped.
ghost use Rattle.std.specs.Prelude.{◌≡◌, ◌∷◌, ◌++◌, OnOk, decimal};
ghost use Rattle.ce_text.specs.Bytes.{space};
ghost use Rattle.ce_script.specs.TextParts.{word_text, joined_words};
ghost use Rattle.ce_script.specs.CommandText.{status_words, stop_words};
ghost use Rattle.ce_trace.specs.Spaced.{spaced_words};

use crate::digits::{push_address, push_with_number};
use crate::words::push;
use ce_model::{Status, Stop};
use std::alloc::AllocError;

/// Why a process stopped, with a space before each word.
fn push_stop(text: &mut Vec<u8>, cause: Stop) -> Result<(), AllocError>
    ensures { OnOk result (text.new.items ≡ text.old.items ++ spaced_words (stop_words cause)) }
{
    match cause {
        Stop::Exited(code) => push_with_number(text, b" exited", code),
        Stop::Killed => push(text, b" killed"),
        Stop::Illegal(pc, word) => push_illegal(text, pc, word),
        Stop::Fetch(pc) => push_cause_with_address(text, b" fetch", pc),
        Stop::Target(pc) => push_cause_with_address(text, b" target", pc),
        Stop::Misaligned(address) => push_cause_with_address(text, b" misaligned", address),
        Stop::Unmapped(address) => push_cause_with_address(text, b" unmapped", address),
        Stop::Gone(address) => push_cause_with_address(text, b" gone", address),
        Stop::PastEnd(address) => push_cause_with_address(text, b" past end", address),
        Stop::NotABlock(address) => push_cause_with_address(text, b" not a block", address),
        Stop::Break(pc) => push_cause_with_address(text, b" break", pc),
        Stop::NoCall(number) => push_with_number(text, b" no call", number),
        Stop::TurnSpent => push(text, b" turn spent"),
        Stop::WindowsSpent => push(text, b" windows spent"),
    }
}

/// A cause that comes with an address.
fn push_cause_with_address(text: &mut Vec<u8>, cause: &[u8], address: u32) -> Result<(), AllocError>
    ensures { OnOk result
        (text.new.items ≡ text.old.items ++ (cause.now ++ (space ∷ word_text address))) }
{
    push(text, cause)?;
    push_address(text, address)
}

/// An instruction word that is no instruction, and where it stood.
fn push_illegal(text: &mut Vec<u8>, pc: u32, word: u32) -> Result<(), AllocError>
    ensures { OnOk result
        (text.new.items ≡ text.old.items ++ spaced_words (stop_words (Stop.Illegal pc word))) }
{
    push_cause_with_address(text, b" illegal", pc)?;
    push_address(text, word)
}

/// What a process does.
pub(crate) fn push_status(text: &mut Vec<u8>, status: Status) -> Result<(), AllocError>
    ensures { OnOk result (text.new.items ≡ text.old.items ++ joined_words (status_words status)) }
{
    match status {
        Status::Unborn => push(text, b"unborn"),
        Status::Running => push(text, b"running"),
        Status::Asking => push(text, b"asking"),
        Status::Polling => push(text, b"polling"),
        Status::Stopped(cause) => {
            push(text, b"stopped")?;
            push_stop(text, cause)
        }
    }
}
