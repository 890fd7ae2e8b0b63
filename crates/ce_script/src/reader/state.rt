//! The reader of scripts behind some statements, and how it takes one line more.
ghost use Rattle.std.specs.Prelude.{◌≡◌, ◌&&◌, ◌∷◌, false, true, List, IfOk, IsTrue, Some, None, is_some};
ghost use Rattle.ce_script.specs.declared.grammar.Verb.TheVariants.{Machine};
ghost use Rattle.ce_script.specs.Lines.{words};
ghost use Rattle.ce_script.specs.Verbs.{verb_of, is_image, is_command, form_of};
ghost use Rattle.ce_script.specs.Statements.{ScriptStatement, operand};
ghost use Rattle.ce_script.specs.Sayings.{command_of_verb};
ghost use Rattle.ce_script.specs.Names.{is_name};
ghost use Rattle.ce_script.specs.Faults.{has_unknown_form};
ghost use Rattle.ce_script.specs.Reading.{HasJudged, word_fault, operands_judgment, user_fault};
ghost use Rattle.ce_script.specs.ReadLines.{plain_line, statement_of_line, lines_left, remaining_statements, IsLater};
ghost use Rattle.ce_script.specs.Places.{AreIndexed, AreIndexed-prop};
ghost use Rattle.ce_script.specs.Standing.{names_so_far, AreFew, AreFew-prop, with_user, with_image, with_command, with_statement, new_image_fault, rest_fault, HasReadUpTo, blank_script};

use crate::grammar::{ImageForm, Verb, form_of, verb_of};
use crate::name::Name;
use crate::reader::body::{body_in, image_in};
use crate::reader::index::Indexes;
use crate::reader::line::WordedLine;
use crate::reader::operand::{command, number};
use crate::reader::rest::Rest;
use crate::reader::so_far::ScriptSoFar;
use crate::script::{NamedImage, ScriptFault, ScriptKind};
use crate::spelling::is_name;
use ce_model::{GREATEST_DIMENSION, GREATEST_IMAGES, GREATEST_USERS, NoMemory};
use ce_text::{are_plain, before_comment};
use std::alloc::Global;

/// What the statements so far say, with the places of the names in it.
#[derive(Drop)]
pub struct Reader {
    alloc: Global,
    /// What the statements so far say.
    pub so_far: ScriptSoFar,
    indexes: Indexes,
    ghost few: { AreFew so_far } by { AreFew-prop so_far },
    ghost indexed: { AreIndexed indexes so_far } by { AreIndexed-prop indexes so_far },
}

/// The name with these letters.
fn name_of(alloc: Global, word: &[u8]) -> Result<Name, NoMemory>
    requires { IsTrue (is_name word.now) }
    ensures { IfOk result (λ name. name ≡ word.now) }
{
    match str::from_utf8(word) {
        Ok(text) => Name::from_str(alloc, text),
        Err(_) => unreachable!(),
    }
}

/// Whether the third word of an image's line is there and no form.
fn has_unknown_form(line: &WordedLine) -> bool
    ensures { result ≡ has_unknown_form (words (plain_line line.now)) }
{
    line.words.len() > 2 && form_of(line.operand(2)).is_none()
}

/// Whether a line begins an image of an unknown form.
fn begins_unknown_form(verb: Verb, line: &WordedLine) -> bool
    ensures { result ≡ (is_image verb && has_unknown_form (words (plain_line line.now))) }
{
    verb.is_image() && has_unknown_form(line)
}

/// The verb of a line whose words are as many as belong to it.
pub fn line_verb(line: &WordedLine) -> Result<Verb, ScriptKind>
    ensures { HasJudged result (word_fault (statement_of_line line.now))
        (verb_of (words (plain_line line.now))) }
{
    if !are_plain(before_comment(line.text)) {
        return Err(ScriptKind::BadByte);
    }
    let verb = match verb_of(line.operand(0)) {
        Some(verb) => verb,
        None => return Err(ScriptKind::UnknownWord),
    };
    if begins_unknown_form(verb, line) {
        return Err(ScriptKind::UnknownWord);
    }
    if line.count() != 1 + verb.operand_count() {
        return Err(ScriptKind::WordCount);
    }
    Ok(verb)
}

impl Reader {
    ghost use Rattle.ce_script.specs.ReaderCalls.{HasReadVerb, HasReadPart, HasReadImage, HasReadStatement, HasReadStatements};

    /// Nothing is said.
    pub fn new(alloc: Global) -> Reader
        ensures { result.so_far ≡ blank_script }
    {
        Reader {
            alloc,
            so_far: ScriptSoFar::new(alloc),
            indexes: Indexes::new(alloc),
        }
    }

    /// `machine D`
    #[tactic(auto, using(crate::proofs::OperandFaults::machine_fault))]
    fn read_machine(mut self, line: &WordedLine) -> Result<Reader, ScriptKind>
        ensures { HasReadPart result (rest_fault self.so_far Machine (statement_of_line line.now))
            (with_statement self.so_far Machine (statement_of_line line.now)) }
    {
        self.so_far.script.dim = Some(number(line, 1, GREATEST_DIMENSION)?);
        Ok(self)
    }

    /// `user NAME`
    fn read_user(mut self, word: &[u8]) -> Result<Reader, ScriptKind>
        ensures { HasReadPart result (user_fault self.so_far.script.users word.now)
            (with_user self.so_far word.now) }
    {
        if !is_name(word) {
            return Err(ScriptKind::BadName);
        }
        if let Some(number) = self.indexes.users.meaning(word) {
            self.so_far.user = Some(number);
            return Ok(self);
        }
        let number = self.so_far.script.users.len() as u32;
        if number >= GREATEST_USERS {
            return Err(ScriptKind::TooMany);
        }
        let name = name_of(self.alloc, word)?;
        self.so_far.script.users.push(name)?;
        self.indexes.users.define(word, number)?;
        self.so_far.user = Some(number);
        Ok(self)
    }

    /// A command.
    fn read_command(mut self, verb: Verb, line: &WordedLine) -> Result<Reader, ScriptKind>
        requires command { IsTrue (is_command verb) }
        requires user { IsTrue (is_some self.so_far.user) }
        ensures { HasReadPart result
            (operands_judgment (names_so_far self.so_far) verb (statement_of_line line.now))
            (with_command self.so_far
            (command_of_verb verb (names_so_far self.so_far) (statement_of_line line.now))) }
    {
        let user_command = command(self.alloc, verb, line, &self.indexes.images)?;
        let Some(user) = self.so_far.user else {
            unreachable!();
        };
        self.so_far.script.commands.push((user, user_command))?;
        Ok(self)
    }

    /// The name of an image that may begin.
    fn new_name(&self, word: &[u8]) -> Result<Name, ScriptKind>
        ensures { HasJudged result (new_image_fault (names_so_far self.now.so_far) word.now)
            (Some word.now) }
    {
        if !is_name(word) {
            return Err(ScriptKind::BadName);
        }
        if self.indexes.images.meaning(word).is_some() {
            return Err(ScriptKind::NameTaken);
        }
        if self.so_far.script.images.len() >= GREATEST_IMAGES as usize {
            return Err(ScriptKind::TooMany);
        }
        Ok(name_of(self.alloc, word)?)
    }

    /// `image NAME FORM`, its body and its `end`.
    fn read_image<'a>(
        self,
        line: &WordedLine,
        form: ImageForm,
        rest: Rest<'a>,
    ) -> Result<(Reader, Rest<'a>), ScriptFault>
        requires form { form_of (operand 2 (statement_of_line line.now)) ≡ Some form }
        requires at { rest.line_count ≡ line.now.number }
        ensures image { HasReadImage result self.so_far line.now rest.entry }
        ensures past { IfOk result (λ next. remaining_statements true (lines_left rest.entry)
            ≡ remaining_statements false (lines_left next.1)) }
        ensures later { IfOk result (λ next. IsLater rest.entry next.1) }
    {
        let name = match self.new_name(line.operand(1)) {
            Ok(name) => name,
            Err(kind) => return Err(kind.fault_of_line(line.number)),
        };
        let Some((body, next)) = body_in(rest) else {
            return Err(ScriptKind::NoEnd.fault_of_line(line.number));
        };
        let image = image_in(self.alloc, form, body)?;
        match self.add_image(NamedImage { name, image }) {
            Ok(reader) => Ok((reader, next)),
            Err(want) => Err(ScriptKind::Memory(want).fault_of_line(line.number)),
        }
    }

    /// One image more.
    fn add_image(mut self, named_image: NamedImage) -> Result<Reader, NoMemory>
        requires { new_image_fault (names_so_far self.so_far) named_image.name ≡ None }
        ensures { IfOk result (λ reader.
            reader.so_far ≡ with_image self.so_far named_image.name named_image.image) }
    {
        let number = self.so_far.script.images.len() as u32;
        self.indexes
            .images
            .define(named_image.name.as_str().as_bytes(), number)?;
        self.so_far.script.images.push(named_image)?;
        Ok(self)
    }

    /// A statement that is no image.
    fn read_other_statement(self, verb: Verb, line: &WordedLine) -> Result<Reader, ScriptKind>
        requires plain { is_image verb ≡ false }
        requires user { IsTrue (is_command verb) → IsTrue (is_some self.so_far.user) }
        ensures { HasReadPart result (rest_fault self.so_far verb (statement_of_line line.now))
            (with_statement self.so_far verb (statement_of_line line.now)) }
    {
        match verb {
            Verb::Machine => self.read_machine(line),
            Verb::User => self.read_user(line.operand(1)),
            _ => self.read_command(verb, line),
        }
    }

    /// The verb of a statement that may stand here.
    fn verb(&self, line: &WordedLine) -> Result<Verb, ScriptKind>
        ensures { HasReadVerb result self.now.so_far (statement_of_line line.now) }
    {
        let verb = line_verb(line)?;
        self.so_far.check_place(verb)?;
        Ok(verb)
    }

    /// A statement; the lines that are left behind it.
    fn read_statement<'a>(
        self,
        line: &WordedLine,
        rest: Rest<'a>,
    ) -> Result<(Reader, Rest<'a>), ScriptFault>
        requires { rest.line_count ≡ line.now.number }
        ensures said { HasReadStatement result self.so_far line.now rest.entry }
        ensures later { IfOk result (λ next. IsLater rest.entry next.1) }
    {
        let verb = match self.verb(line) {
            Ok(verb) => verb,
            Err(kind) => return Err(kind.fault_of_line(line.number)),
        };
        match (verb, form_of(line.operand(2))) {
            (Verb::Image, Some(form)) => self.read_image(line, form, rest),
            _ => match self.read_other_statement(verb, line) {
                Ok(reader) => Ok((reader, rest)),
                Err(kind) => Err(kind.fault_of_line(line.number)),
            },
        }
    }

    /// A line; the lines that are left behind it, and behind the body of an image that it begins.
    pub fn read_line<'a>(
        self,
        text: &[u8],
        rest: Rest<'a>,
    ) -> Result<(Reader, Rest<'a>), ScriptFault>
        ensures stands { (all : List ScriptStatement)
            → HasReadUpTo all self.so_far (remaining_statements false
            (record { number = rest.entry.line_count; text = text.now } ∷ lines_left rest.entry))
            → HasReadStatements all result }
        ensures later { IfOk result (λ next. IsLater rest.entry next.1) }
    {
        let line = match WordedLine::new(self.alloc, rest.line_count, text) {
            Ok(line) => line,
            Err(want) => return Err(ScriptKind::Memory(want).fault_of_line(rest.line_count)),
        };
        if line.words.is_empty() {
            return Ok((self, rest));
        }
        self.read_statement(&line, rest)
    }
}
