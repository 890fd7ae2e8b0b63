//! Why a text is refused.

ghost use Rattle.std.specs.Prelude.{◌≡◌};
ghost use Rattle.rv_asm.specs.declared.fault.Halt.TheVariants.{Memory, Fault};

use rv_model::NoMemory;
use std::alloc::{AllocError, AllocFailed};
use std::fmt;
use thiserror::Error;

/// What is wrong with a line, in the order in which a line is judged: each kind is judged over the
/// whole line before the next (docs/ASSEMBLY.md, "Faults").
#[derive(Clone, Copy, Debug, PartialEq, Eq, PartialOrd, Ord)]
pub enum AsmKind {
    /// A byte before any comment is neither a blank nor from 0x21 to 0x7E.
    BadByte,
    /// A label or a name of `.equ` stands for something already.
    NameTaken,
    /// The first word is none of the language's, what stands before a colon is no name, or there is
    /// a second colon.
    UnknownWord,
    /// There are too few or too many operands, or one has not the form that belongs in its place.
    Operands,
    /// An operand is no register.
    BadRegister,
    /// An operand is no number, or one that is out of range.
    BadNumber,
    /// No earlier `.equ` gave a number's name, or no line has the label.
    UnknownName,
    /// An instruction or a `.word` would stand at an address that is not a multiple of 4.
    Unaligned,
    /// There are more than `IMAGE_ROOM` bytes so far.
    TooLarge,
    /// A jump or a branch does not reach its label, or the label lies at an odd distance.
    TooFar,
    /// No whole word stands at the entry, or the entry is not a multiple of 4. The line is 0.
    Entry,
    /// Memory ran out, which may come at any line.
    Memory(NoMemory),
}

impl AsmKind {
    ghost use Rattle.rv_asm.specs.FaultTexts.{assembly_text};

    /// Its text in messages.
    pub fn text(&self) -> &'static str
        ensures { result.now ≡ assembly_text self.now }
    {
        match self {
            AsmKind::BadByte => "bad byte",
            AsmKind::NameTaken => "name taken",
            AsmKind::UnknownWord => "unknown word",
            AsmKind::Operands => "operands",
            AsmKind::BadRegister => "bad register",
            AsmKind::BadNumber => "bad number",
            AsmKind::UnknownName => "unknown name",
            AsmKind::Unaligned => "unaligned",
            AsmKind::TooLarge => "too large",
            AsmKind::TooFar => "too far",
            AsmKind::Entry => "entry",
            AsmKind::Memory(cause) => cause.text(),
        }
    }
}

impl fmt::Display for AsmKind {
    ghost use Rattle.std.specs.Prelude.{Some};
    ghost use Rattle.rv_asm.specs.FaultTexts.{assembly_text};

    ghost output = { λ kind. Some (assembly_text kind) };

    fn fmt<W: fmt::Write>(&self, f: &mut fmt::Formatter<W>) -> fmt::Result {
        f.write_str(self.text())
    }
}

/// What operands are judged to be, or the kind of their fault.
pub type Judgment<T> = Result<T, AsmKind>;

/// The first fault of a text.
#[derive(Clone, Copy, Debug, PartialEq, Eq, Error)]
#[error("line {line}: {kind}")]
pub struct AsmFault {
    /// The line, counted from 1; 0 for `Entry`.
    pub line: u32,
    /// What is wrong with it.
    pub kind: AsmKind,
}

/// Why a line stops the work.
#[derive(Clone, Copy, Debug)]
pub enum Halt {
    Memory,
    Fault(AsmKind),
}

impl Halt {
    ghost use Rattle.rv_asm.specs.Faults.{halt_fault};

    /// As a fault of this line.
    pub fn fault_of_line(self, line: u32) -> AsmFault
        ensures { result ≡ halt_fault self line }
    {
        let kind = match self {
            Halt::Memory => AsmKind::Memory(NoMemory),
            Halt::Fault(kind) => kind,
        };
        AsmFault { line, kind }
    }
}

impl From<AsmKind> for Halt {
    ghost from_gives = { λ kind halt. halt ≡ Fault kind };

    fn from(kind: AsmKind) -> Halt {
        Halt::Fault(kind)
    }
}

impl From<AllocError> for Halt {
    ghost from_gives = { λ _ halt. halt ≡ Memory };

    fn from(_: AllocError) -> Halt {
        Halt::Memory
    }
}

impl<T: Drop> From<AllocFailed<T>> for Halt {
    ghost from_gives = { λ _ halt. halt ≡ Memory };

    fn from(_: AllocFailed<T>) -> Halt {
        Halt::Memory
    }
}
