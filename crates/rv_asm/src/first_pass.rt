//! The first pass: each line is judged, and its statements get their places.

ghost use Rattle.std.specs.Prelude.{◌≡◌, ◌<◌, length, Some, option_map};
ghost use Rattle.ce_text.specs.declared.limits.TheConstants.{TEXT_LIMIT};
ghost use Rattle.rv_asm.specs.Sizes.{size_of, lays_words};
ghost use Rattle.rv_asm.specs.Sound.{IsSoundStatement, AreSound};
ghost use Rattle.rv_asm.specs.LayoutView.{layout_view};
ghost use Rattle.rv_asm.specs.FirstPass.{layout_with_statement, layout_with_all, layout_with_name, layout_with_number, layout_with_statements, layout_with_statement_text, layout_with_labelled_statement, layout_with_line, operands_of, HasLaid, first_pass};
ghost use Rattle.rv_asm.specs.Faults.{IsAllSeenAs};

use crate::fault::{AsmFault, AsmKind, Halt};
use crate::layout::Layout;
use crate::mnemonic::mnemonic_of;
use crate::name::is_name;
use crate::operand::{name_piece, number, pair, two_pieces};
use crate::statement::{PlacedStatement, Statement, statements_of};
use crate::symbols::{Symbol, Symbols};
use ce_text::{
    are_plain, before_comment, cut_at, cut_at_blank, has_byte, next_line, without_outer_blanks,
};
use rv_model::{IMAGE_ROOM, PRIVATE_START, WORD_SIZE};
use std::alloc::Global;

fn size_of(statement: &Statement<'_>) -> u32
    ensures { result ≡ size_of statement.now }
{
    match statement {
        Statement::Byte(_) => 1,
        Statement::Zero(count) => *count,
        Statement::La { .. } => 2 * WORD_SIZE,
        _ => WORD_SIZE,
    }
}

fn lays_words(statement: &Statement<'_>) -> bool
    ensures { result ≡ lays_words statement.now }
{
    !matches!(statement, Statement::Byte(_) | Statement::Zero(_))
}

fn operands_of(rest: Option<&[u8]>) -> &[u8]
    ensures { result.now ≡ operands_of (option_map (λ bytes. bytes.now) rest.entry) }
{
    match rest {
        None => &[],
        Some(bytes) => without_outer_blanks(bytes),
    }
}

impl<'a> Layout<'a> {
    /// Lays one more statement, of this line. `Unaligned` where words would not stand at a multiple
    /// of 4, then `TooLarge`.
    #[tactic(auto, unfolding(crate::specs::FirstPass::layout_with_statement))]
    fn place(&mut self, line_number: u32, statement: Statement<'a>) -> Result<(), Halt>
        requires { IsSoundStatement statement }
        ensures { HasLaid result (layout_view self.new)
            (layout_with_statement line_number (layout_view self.old) statement.entry) }
    {
        if lays_words(&statement) && self.size % WORD_SIZE != 0 {
            return Err(Halt::Fault(AsmKind::Unaligned));
        }
        let size = size_of(&statement);
        if size > IMAGE_ROOM - self.size {
            return Err(Halt::Fault(AsmKind::TooLarge));
        }
        self.statements.push(PlacedStatement {
            line: line_number,
            statement,
        })?;
        self.size += size;
        Ok(())
    }

    fn place_all(&mut self, line_number: u32, statements: Vec<Statement<'a>>) -> Result<(), Halt>
        requires { AreSound statements.items }
        ensures { HasLaid result (layout_view self.new)
            (layout_with_all line_number (layout_view self.old) statements.entry.items) }
    {
        for statement in statements {
            self.place(line_number, statement)?;
        }
        Ok(())
    }

    /// Gives a name a meaning, and `NameTaken` where it has one.
    #[tactic(auto, unfolding(crate::specs::FirstPass::layout_with_name))]
    fn define(&mut self, name: &[u8], symbol: Symbol) -> Result<(), Halt>
        ensures { HasLaid result (layout_view self.new)
            (layout_with_name (layout_view self.old) name.now symbol) }
    {
        if self.symbols.meaning(name).is_some() {
            return Err(Halt::Fault(AsmKind::NameTaken));
        }
        self.symbols.define(name, symbol)?;
        Ok(())
    }

    /// `.equ name, n`
    #[tactic(auto, unfolding(crate::specs::FirstPass::layout_with_number))]
    fn define_number(&mut self, operands: &[u8]) -> Result<(), Halt>
        ensures { HasLaid result (layout_view self.new)
            (layout_with_number (layout_view self.old) operands.now) }
    {
        let first = cut_at(operands, b',').0;
        if self.symbols.meaning(without_outer_blanks(first)).is_some() {
            return Err(Halt::Fault(AsmKind::NameTaken));
        }
        let (name, n) = two_pieces(operands)?;
        let ((), n) = pair(name_piece(name), number(&self.symbols, n))?;
        self.define(name, Symbol::Number(n))
    }

    /// A statement whose mnemonic or directive is another than `.equ`.
    #[tactic(auto, unfolding(crate::specs::FirstPass::layout_with_statements))]
    fn lay(&mut self, line_number: u32, front: &[u8], operands: &'a [u8]) -> Result<(), Halt>
        ensures { HasLaid result (layout_view self.new)
            (layout_with_statements line_number (layout_view self.old) front.now operands.now) }
    {
        let mnemonic = mnemonic_of(front).ok_or(AsmKind::UnknownWord)?;
        let statements = statements_of(self.alloc, mnemonic, &self.symbols, operands)?;
        self.place_all(line_number, statements)
    }

    /// What a line has behind its label: nothing, or a mnemonic and its operands.
    #[tactic(auto, unfolding(crate::specs::FirstPass::layout_with_statement_text))]
    fn lay_statement_text(&mut self, line_number: u32, bytes: &'a [u8]) -> Result<(), Halt>
        ensures { HasLaid result (layout_view self.new)
            (layout_with_statement_text line_number (layout_view self.old) bytes.now) }
    {
        if bytes.is_empty() {
            return Ok(());
        }
        if has_byte(bytes, b':') {
            return Err(Halt::Fault(AsmKind::UnknownWord));
        }
        let (front, rest) = cut_at_blank(bytes);
        if front == b".equ".as_slice() {
            self.define_number(operands_of(rest))
        } else {
            self.lay(line_number, front, operands_of(rest))
        }
    }

    fn lay_labelled_statement(
        &mut self,
        line_number: u32,
        front: &'a [u8],
        rest: &'a [u8],
    ) -> Result<(), Halt>
        ensures { HasLaid result (layout_view self.new)
            (layout_with_labelled_statement line_number (layout_view self.old) front.now
            (Some rest.now)) }
    {
        let label = without_outer_blanks(front);
        if !is_name(label) {
            return Err(Halt::Fault(AsmKind::UnknownWord));
        }
        let address = PRIVATE_START + self.size;
        self.define(label, Symbol::Label(address))?;
        self.lay_statement_text(line_number, without_outer_blanks(rest))
    }

    /// One line.
    #[tactic(auto, unfolding(crate::specs::FirstPass::layout_with_line))]
    fn lay_line(&mut self, line_number: u32, bytes: &'a [u8]) -> Result<(), Halt>
        ensures { HasLaid result (layout_view self.new)
            (layout_with_line line_number (layout_view self.old) bytes.now) }
    {
        let code = before_comment(bytes);
        if !are_plain(code) {
            return Err(Halt::Fault(AsmKind::BadByte));
        }
        let (front, rest) = cut_at(code, b':');
        match rest {
            None => self.lay_statement_text(line_number, without_outer_blanks(front)),
            Some(rest) => self.lay_labelled_statement(line_number, front, rest),
        }
    }
}

/// The layout of a text of fewer than `TEXT_LIMIT` bytes, or its first fault of the first pass.
#[tactic(auto, unfolding(crate::specs::FirstPass::first_pass))]
pub fn first_pass(alloc: Global, text: &[u8]) -> Result<Layout<'_>, AsmFault>
    requires { length text.now < TEXT_LIMIT }
    ensures { IsAllSeenAs layout_view result (first_pass text.now) }
{
    let mut layout = Layout {
        alloc,
        symbols: Symbols::new(alloc),
        statements: Vec::new(alloc),
        size: 0,
    };
    let mut line_number: u32 = 0;
    let mut rest = Some(text);
    while let Some(bytes) = rest {
        let (front, others) = next_line(bytes);
        line_number += 1;
        if let Err(halt) = layout.lay_line(line_number, front) {
            return Err(halt.fault_of_line(line_number));
        }
        rest = others;
    }
    Ok(layout)
}
