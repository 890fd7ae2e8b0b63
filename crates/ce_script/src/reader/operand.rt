//! The operands of statements.
ghost use Rattle.std.specs.Prelude.{◌≡◌, ◌∷◌, [], ◌+◌, ◌<◌, ◌^◌, length, IsTrue, ℕ, List, IfSome, Some, None, is_none, option_map, position, bytes_eq, map};
ghost use Rattle.ce_script.specs.declared.script.ScriptKind.TheVariants.{BadNumber, BadHex};
ghost use Rattle.ce_script.specs.Spellings.{bounded_number, data_in, greatest_number};
ghost use Rattle.ce_script.specs.Statements.{operand};
ghost use Rattle.ce_script.specs.Sayings.{operand_number, operand_place, command_of_verb};
ghost use Rattle.ce_script.specs.Verbs.{OldImage, is_command};
ghost use Rattle.ce_script.specs.Faults.{first_some, kind_where, operand_fault};
ghost use Rattle.ce_script.specs.Sayings.{name_number};
ghost use Rattle.ce_script.specs.Reading.{HasJudged, operands_judgment};
ghost use Rattle.ce_script.specs.ReadLines.{statement_of_line};
ghost use Rattle.ce_script.specs.Places.{IsIndexOf};

use crate::grammar::Verb;
use crate::reader::index::NameIndex;
use crate::reader::line::WordedLine;
use crate::script::ScriptKind;
use crate::spelling::{bounded_number, data_in, is_name};
use ce_host::Command;
use ce_model::{Bytes, GREATEST_COUNT, GREATEST_DIMENSION, Place};
use std::alloc::Global;

/// The number that the operand with this number writes, at most this.
#[tactic(auto, using(crate::proofs::Numbers::number_there, crate::proofs::Numbers::number_missing))]
pub fn number(line: &WordedLine, index: usize, greatest: u32) -> Result<u32, ScriptKind>
    ensures { HasJudged result
        (kind_where (is_none (bounded_number greatest (operand index (statement_of_line line.now))))
        BadNumber)
        (Some (operand_number index (statement_of_line line.now))) }
{
    match bounded_number(line.operand(index), greatest) {
        Some(number) => Ok(number),
        None => Err(ScriptKind::BadNumber),
    }
}

/// The node and the process id that two operands write, the first of them this one.
fn place(line: &WordedLine, index: usize) -> Result<Place, ScriptKind>
    requires { index < 2 ^ 32 }
    ensures { HasJudged result (first_some
        (kind_where (is_none
        (bounded_number greatest_number (operand index (statement_of_line line.now))))
        BadNumber
        ∷ kind_where
        (is_none
        (bounded_number greatest_number (operand (index + 1) (statement_of_line line.now))))
        BadNumber ∷ []))
        (Some (operand_place index (statement_of_line line.now))) }
{
    let node = number(line, index, u32::MAX)?;
    let pid = number(line, index + 1, u32::MAX)?;
    Ok(Place { node, pid })
}

/// The number of an earlier image.
fn old_image(images: &NameIndex, word: &[u8]) -> Result<u32, ScriptKind>
    ensures { (names : List (List ℕ)) → IsIndexOf images.now names
        → HasJudged result (operand_fault names OldImage word.now)
        (Some (name_number word.now names)) }
{
    if !is_name(word) {
        return Err(ScriptKind::BadName);
    }
    match images.meaning(word) {
        Some(number) => Ok(number),
        None => Err(ScriptKind::UnknownImage),
    }
}

/// The bytes of a message.
fn data(alloc: Global, line: &WordedLine, index: usize) -> Result<Bytes, ScriptKind>
    ensures { HasJudged result
        (kind_where (is_none (data_in (operand index (statement_of_line line.now)))) BadHex)
        (data_in (operand index (statement_of_line line.now))) }
{
    match data_in(alloc, line.operand(index))? {
        Some(bytes) => Ok(bytes),
        None => Err(ScriptKind::BadHex),
    }
}

/// The command of a line that begins with this verb, behind these images.
#[tactic(auto, using(crate::proofs::OperandFaults::getcube_fault, crate::proofs::OperandFaults::peek_fault, crate::proofs::OperandFaults::freecube_fault, crate::proofs::OperandFaults::trace_fault, crate::proofs::OperandFaults::run_fault, crate::proofs::OperandFaults::recv_fault, crate::proofs::OperandFaults::kill_fault, crate::proofs::OperandFaults::dump_fault, crate::proofs::OperandFaults::spawn_fault, crate::proofs::OperandFaults::send_fault))]
pub fn command(
    alloc: Global,
    verb: Verb,
    line: &WordedLine,
    images: &NameIndex,
) -> Result<Command, ScriptKind>
    requires { IsTrue (is_command verb) }
    ensures { (names : List (List ℕ)) → IsIndexOf images.now names
        → HasJudged result (operands_judgment names verb (statement_of_line line.now))
        (command_of_verb verb names (statement_of_line line.now)) }
{
    match verb {
        Verb::Getcube => Ok(Command::Getcube(number(line, 1, GREATEST_DIMENSION)?)),
        Verb::Peek => Ok(Command::Peek),
        Verb::Freecube => Ok(Command::Freecube),
        Verb::Spawn => {
            let image = old_image(images, line.operand(1))?;
            Ok(Command::Spawn(image, place(line, 2)?))
        }
        Verb::Kill => Ok(Command::Kill(place(line, 1)?)),
        Verb::Send => {
            let to = place(line, 1)?;
            Ok(Command::Send(to, data(alloc, line, 3)?))
        }
        Verb::Run => Ok(Command::Run(number(line, 1, GREATEST_COUNT)?)),
        Verb::Recv => Ok(Command::Recv(number(line, 1, GREATEST_COUNT)?)),
        Verb::Dump => Ok(Command::Dump(place(line, 1)?)),
        Verb::Trace => Ok(Command::Trace),
        Verb::Machine | Verb::Image | Verb::User => unreachable!(),
    }
}
