//! The bodies of images.
ghost use Rattle.std.specs.Prelude.{◌≡◌, ◌++◌, ℕ, List, false, true, flat_map, find, map, unwrap_or, option_map, IfOk, IfSome, Some, None, OnOk, MatchResult, MatchOption};
ghost use Rattle.std.specs.Prelude.{is_none, []};
ghost use Rattle.std.specs.List.{list_any};
ghost use Rattle.ce_text.specs.Line.{before_comment};
ghost use Rattle.ce_text.specs.Words.{line_words};
ghost use Rattle.ce_script.specs.declared.grammar.ImageForm.TheVariants.{Hex, Asm, Rki};
ghost use Rattle.ce_script.specs.Lines.{Line, has_bad_byte};
ghost use Rattle.ce_script.specs.Statements.{found_body};
ghost use Rattle.ce_script.specs.Bodies.{has_bad_word, body_bytes, first_line_fault, form_image, form_fault, body_fault};
ghost use Rattle.ce_script.specs.declared.script.ScriptKind.TheVariants.{BadByte, BadImage};
ghost use Rattle.ce_script.specs.Reading.{ScriptUnless, HasFound};
ghost use Rattle.ce_script.specs.ReadLines.{lines_left, body_lines, IsBody, IsBodyIn};
ghost use Rattle.ce_script.specs.ReadWords.{word_bytes};

use crate::grammar::ImageForm;
use crate::reader::line::is_end;
use crate::reader::rest::{Body, Rest};
use crate::script::{ScriptFault, ScriptKind};
use crate::spelling::{are_byte_digits, instruction_in, push_digit_bytes};
use ce_text::{are_plain, before_comment, next_line, next_word};
use rv_asm::{AsmKind, assemble};
use rv_image::{Image, ImageFault};
use rv_model::PRIVATE_START;
use std::alloc::Global;

/// What a word of a body writes.
#[derive(Clone, Copy)]
pub enum WordKind {
    /// An instruction word.
    Instruction,
    /// Bytes.
    Plain,
}

/// The body of the image whose line stands before what is left, and what is left behind its `end`.
pub fn body_in<'a>(rest: Rest<'a>) -> Option<(Body<'a>, Rest<'a>)>
    ensures { MatchOption result (found_body (lines_left rest.entry) ≡ None)
        (λ body_and_rest. IsBodyIn rest.entry body_and_rest.0 body_and_rest.1) }
{
    let all = rest.text?;
    let mut tail = rest;
    while let Some((line, next)) = tail.first_line() {
        if is_end(line) {
            let body = Body {
                line: rest.line_count,
                text: &all[..all.len() - tail.byte_count()],
            };
            return Some((body, next));
        }
        tail = next;
    }
    None
}

/// The first line of a body that has a bad byte.
fn bad_byte_line(body: Body) -> Option<u32>
    ensures { result
        ≡ option_map (λ line. line.number) (find has_bad_byte (body_lines body.entry)) }
{
    let mut number = body.line;
    let mut rest = Some(body.text);
    while let Some(bytes) = rest {
        let (line, tail) = next_line(bytes);
        number += 1;
        if !are_plain(before_comment(line)) {
            return Some(number);
        }
        rest = tail;
    }
    None
}

/// Adds what a word writes.
#[tactic(auto, unfolding(crate::specs::Spellings::written_bytes))]
fn push_word(bytes: &mut Vec<u8>, kind: WordKind, word: &[u8]) -> Result<(), ScriptKind>
    ensures { MatchResult result
        (λ _. (is_none (word_bytes kind word.now) ≡ false)
        × (bytes.new.items ≡ bytes.old.items ++ unwrap_or (word_bytes kind word.now) []))
        (λ fault. ScriptUnless fault ((fault ≡ BadImage)
        × (is_none (word_bytes kind word.now) ≡ true))) }
{
    match kind {
        WordKind::Instruction => {
            let word = instruction_in(word).ok_or(ScriptKind::BadImage)?;
            bytes.extend_from_slice(&word.to_le_bytes())?;
        }
        WordKind::Plain => {
            if !are_byte_digits(word) {
                return Err(ScriptKind::BadImage);
            }
            push_digit_bytes(bytes, word)?;
        }
    }
    Ok(())
}

/// Adds what the words of a line write.
fn push_line(bytes: &mut Vec<u8>, kind: WordKind, line: &[u8]) -> Result<(), ScriptKind>
    ensures { MatchResult result
        (λ _. (list_any (λ word. is_none (word_bytes kind word))
        (line_words (before_comment line.now)) ≡ false)
        × (bytes.new.items ≡ bytes.old.items
        ++ flat_map (λ word. unwrap_or (word_bytes kind word) [])
        (line_words (before_comment line.now))))
        (λ fault. ScriptUnless fault ((fault ≡ BadImage)
        × (list_any (λ word. is_none (word_bytes kind word))
        (line_words (before_comment line.now)) ≡ true))) }
{
    let mut rest = before_comment(line);
    while let Some((word, tail)) = next_word(rest) {
        push_word(bytes, kind, word)?;
        rest = tail;
    }
    Ok(())
}

/// The bytes that the words of a body write.
fn bytes_of(alloc: Global, kind: WordKind, body: Body) -> Result<Vec<u8>, ScriptFault>
    ensures { MatchResult result
        (λ bytes. (first_line_fault (has_bad_word (word_bytes kind)) BadImage
        (body_lines body.entry) ≡ None)
        × (bytes.items ≡ body_bytes (word_bytes kind) (body_lines body.entry)))
        (λ fault. ScriptUnless fault.kind
        (first_line_fault (has_bad_word (word_bytes kind)) BadImage
        (body_lines body.entry) ≡ Some fault)) }
{
    let mut bytes = Vec::new(alloc);
    let mut number = body.line;
    let mut rest = Some(body.text);
    while let Some(text) = rest {
        let (line, tail) = next_line(text);
        number += 1;
        if let Err(fault) = push_line(&mut bytes, kind, line) {
            return Err(fault.fault_of_line(number));
        }
        rest = tail;
    }
    Ok(bytes)
}

/// The image of instruction words.
#[tactic(auto, using(crate::proofs::BodyFaults::hex_bad, crate::proofs::BodyFaults::hex_judged, crate::proofs::BodyFaults::hex_there))]
fn hex_image(alloc: Global, body: Body) -> Result<Image, ScriptFault>
    ensures { (lines : List Line) → IsBody body.entry lines
        → HasFound result (form_fault Hex body.entry.line lines) (Some (form_image Hex lines)) }
{
    let bytes = bytes_of(alloc, WordKind::Instruction, body)?;
    match Image::of_parts(PRIVATE_START, bytes, 0) {
        Ok(image) => Ok(image),
        Err(_) => Err(ScriptKind::BadImage.fault_of_line(body.line)),
    }
}

/// The image of bytes in RKI1.
#[tactic(auto, using(crate::proofs::BodyFaults::rki_bad, crate::proofs::BodyFaults::rki_judged, crate::proofs::BodyFaults::rki_there))]
fn rki_image(alloc: Global, body: Body) -> Result<Image, ScriptFault>
    ensures { (lines : List Line) → IsBody body.entry lines
        → HasFound result (form_fault Rki body.entry.line lines) (Some (form_image Rki lines)) }
{
    let bytes = bytes_of(alloc, WordKind::Plain, body)?;
    match rv_image::read(alloc, bytes.as_slice()) {
        Ok(image) => Ok(image),
        Err(fault) => match fault {
            ImageFault::Memory(want) => Err(ScriptKind::Memory(want).fault_of_line(body.line)),
            _ => Err(ScriptKind::BadImage.fault_of_line(body.line)),
        },
    }
}

/// The image of an assembly text.
#[tactic(auto, using(crate::proofs::BodyFaults::asm_there, crate::proofs::BodyFaults::asm_bad, crate::proofs::FaultLines::fault_line))]
fn asm_image(alloc: Global, body: Body) -> Result<Image, ScriptFault>
    ensures { (lines : List Line) → IsBody body.entry lines
        → HasFound result (form_fault Asm body.entry.line lines) (Some (form_image Asm lines)) }
{
    match assemble(alloc, body.text) {
        Ok(image) => Ok(image),
        Err(fault) => match fault.kind {
            AsmKind::Memory(want) => Err(ScriptKind::Memory(want).fault_of_line(body.line)),
            kind => Err(ScriptKind::Assembly(kind).fault_of_line(body.line + fault.line)),
        },
    }
}

/// The image that a body describes, or the first fault of the body.
#[tactic(auto, using(crate::proofs::BodyFaults::body_bad_byte, crate::proofs::BodyFaults::body_plain))]
pub fn image_in(alloc: Global, form: ImageForm, body: Body) -> Result<Image, ScriptFault>
    ensures { (lines : List Line) → IsBody body.entry lines
        → HasFound result (body_fault form body.entry.line lines) (Some (form_image form lines)) }
{
    if let Some(line) = bad_byte_line(body) {
        return Err(ScriptKind::BadByte.fault_of_line(line));
    }
    match form {
        ImageForm::Hex => hex_image(alloc, body),
        ImageForm::Asm => asm_image(alloc, body),
        ImageForm::Rki => rki_image(alloc, body),
    }
}
