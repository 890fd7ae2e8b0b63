//! What a script says, and why a text is none.
ghost use Rattle.std.specs.Prelude.{◌≡◌};
ghost use Rattle.ce_script.specs.declared.script.ScriptKind.TheVariants.{Memory};

use crate::name::Name;
use ce_host::Command;
use ce_model::NoMemory;
use rv_asm::AsmKind;
use rv_image::Image;
use sqlite_items::Items;
use std::alloc::AllocError;
use thiserror::Error;

/// An image with its name.
#[derive(Debug, Drop)]
pub struct NamedImage {
    /// The name, by which commands speak of the image.
    pub name: Name,
    /// What processes are started from.
    pub image: Image,
}

/// What a script says: the machine, and what its users do with it.
#[derive(Debug, Drop)]
pub struct Script {
    /// The machine's dimension, `GREATEST_DIMENSION` at most; none where the script has no
    /// statements.
    pub dim: Option<u32>,
    /// The images, by number, in the script's order; `GREATEST_IMAGES` at most, each of another
    /// name.
    pub images: Items<NamedImage>,
    /// The users' names, by number, in the order in which the script first names them;
    /// `GREATEST_USERS` at most, all different.
    pub users: Items<Name>,
    /// Each command with its user's number, in the script's order.
    pub commands: Items<(u32, Command)>,
}

/// What is wrong with a line of a script, in the order in which a line is judged: each kind is
/// judged before the next, but that the operands are judged from left to right, each with all its
/// kinds (from `BadNumber` to `UnknownImage`).
#[derive(Clone, Copy, Debug, PartialEq, Eq)]
pub enum ScriptKind {
    /// A byte before any comment is neither a blank nor from 0x21 to 0x7E; also in a line of an
    /// image's body.
    BadByte,
    /// The first word begins no statement, or an image has a form that is none of `hex`, `asm` and
    /// `rki`.
    UnknownWord,
    /// The statement has more or fewer words.
    WordCount,
    /// Another statement comes before `machine`.
    NoMachine,
    /// A second `machine`.
    SecondMachine,
    /// A command comes before any `user`.
    NoUser,
    /// A word is no number, or the number is too large where it stands: a dimension over
    /// `GREATEST_DIMENSION`, a count over `GREATEST_COUNT`.
    BadNumber,
    /// A word is no name.
    BadName,
    /// The data of `send` is neither `-` nor pairs of hexadecimal digits, `BLOCK_ROOM` pairs at
    /// most.
    BadHex,
    /// An earlier image has the name.
    NameTaken,
    /// More users than `GREATEST_USERS`, or more images than `GREATEST_IMAGES`.
    TooMany,
    /// No earlier image has the name.
    UnknownImage,
    /// No `end` follows the line that begins an image.
    NoEnd,
    /// The body of an image is refused by the assembler; the line is the image's and the fault's
    /// together.
    Assembly(AsmKind),
    /// A word of a `hex` or `rki` body is not as it must be, at the word's line; or the words give
    /// no image, at the image's line.
    BadImage,
    /// Memory ran out, which may come at any line.
    Memory(NoMemory),
}

/// The first fault of a text that is no script.
#[derive(Clone, Copy, Debug, PartialEq, Eq, Error)]
#[error("line {line}: {kind}")]
pub struct ScriptFault {
    /// The line, counted from 1.
    pub line: u32,
    /// What is wrong with it.
    pub kind: ScriptKind,
}

impl ScriptKind {
    ghost use Rattle.ce_script.specs.Bodies.{located_fault};

    /// As a fault of this line.
    pub(crate) fn fault_of_line(self, line: u32) -> ScriptFault
        ensures { result ≡ located_fault line self }
    {
        ScriptFault { line, kind: self }
    }
}

impl From<NoMemory> for ScriptKind {
    ghost from_gives = { λ want kind. kind ≡ Memory want };

    fn from(want: NoMemory) -> ScriptKind {
        ScriptKind::Memory(want)
    }
}

impl From<AllocError> for ScriptKind {
    ghost from_gives = { λ _ kind. kind ≡ Memory (record {}) };

    fn from(_: AllocError) -> ScriptKind {
        ScriptKind::Memory(NoMemory)
    }
}
