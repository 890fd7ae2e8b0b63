//! The texts of faults.
ghost use Rattle.std.specs.Prelude.{◌≡◌, ◌++◌};
ghost use Rattle.ce_script.specs.FaultTexts.{assembly_part, kind_part, kind_text};

use crate::script::ScriptKind;
use rv_asm::AsmKind;
use std::fmt;

/// The text of a kind, in two pieces: the second is empty but for a fault that the assembler found.
#[derive(Clone, Copy, Debug)]
pub struct KindText {
    /// What it begins with.
    pub kind: &'static str,
    /// What the assembler found.
    pub assembly: &'static str,
}

impl ScriptKind {
    /// Its text, as it is told to who gave the script.
    #[tactic(auto, unfolding(crate::specs::FaultTexts::kind_part, crate::specs::FaultTexts::assembly_part, crate::specs::FaultTexts::kind_text))]
    pub fn text(&self) -> KindText
        ensures kind { result.kind.now ≡ kind_part self.now }
        ensures assembly { result.assembly.now ≡ assembly_part self.now }
        ensures whole { result.kind.now ++ result.assembly.now ≡ kind_text self.now }
    {
        let kind = match self {
            ScriptKind::BadByte => AsmKind::BadByte.text(),
            ScriptKind::UnknownWord => AsmKind::UnknownWord.text(),
            ScriptKind::WordCount => "wrong number of words",
            ScriptKind::NoMachine => "no machine line",
            ScriptKind::SecondMachine => "second machine line",
            ScriptKind::NoUser => "no user line",
            ScriptKind::BadNumber => AsmKind::BadNumber.text(),
            ScriptKind::BadName => "bad name",
            ScriptKind::BadHex => "bad hex",
            ScriptKind::NameTaken => AsmKind::NameTaken.text(),
            ScriptKind::TooMany => "too many",
            ScriptKind::UnknownImage => "unknown image",
            ScriptKind::NoEnd => "no end line",
            ScriptKind::BadImage => "bad image",
            ScriptKind::Memory(want) => want.text(),
            ScriptKind::Assembly(kind) => {
                return KindText {
                    kind: "assembly: ",
                    assembly: kind.text(),
                };
            }
        };
        KindText { kind, assembly: "" }
    }
}

impl fmt::Display for ScriptKind {
    ghost use Rattle.std.specs.Prelude.{Some};

    ghost output = { λ kind. Some (kind_text kind) };

    fn fmt<W: fmt::Write>(&self, f: &mut fmt::Formatter<W>) -> fmt::Result {
        let text = self.text();
        f.write_str(text.kind)?;
        f.write_str(text.assembly)
    }
}
