//! Lines and their words.
ghost use Rattle.std.specs.Prelude.{◌≡◌, ◌≤◌, ◌<◌, ◌+◌, ◌^◌, ◌∷◌, ◌++◌, [], codes, length, map, IfOk, IfSome, Some, OnOk, MatchResult};
ghost use Rattle.ce_text.specs.Line.{before_comment};
ghost use Rattle.ce_text.specs.Words.{line_words};
ghost use Rattle.ce_script.specs.Statements.{are_only};

use ce_model::NoMemory;
use ce_text::{before_comment, next_word};
use std::alloc::Global;

/// A line, with its words.
#[derive(Drop)]
pub struct WordedLine<'a> {
    /// Its number, counted from 1.
    pub number: u32,
    /// Its bytes.
    pub text: &'a [u8],
    /// Its words.
    pub words: Vec<&'a [u8]>,
    ghost split: { map (λ word. word.now) words.items ≡ line_words (before_comment text.now) },
}

/// The words between blanks.
fn words_of(alloc: Global, code: &[u8]) -> Result<Vec<&[u8]>, NoMemory>
    ensures { IfOk result (λ list. map (λ word. word.now) list.items ≡ line_words code.now) }
{
    let mut list = Vec::new(alloc);
    let mut rest = code;
    while let Some((word, tail)) = next_word(rest) {
        list.push(word)?;
        rest = tail;
    }
    Ok(list)
}

/// Whether a line's only word is `end`.
pub fn is_end(line: &[u8]) -> bool
    ensures { result ≡ are_only (codes "end") (line_words (before_comment line.now)) }
{
    match next_word(before_comment(line)) {
        Some((word, tail)) => word == b"end".as_slice() && next_word(tail).is_none(),
        None => false,
    }
}

impl<'a> WordedLine<'a> {
    ghost use Rattle.ce_script.specs.Statements.{operand};
    ghost use Rattle.ce_script.specs.ReadLines.{plain_line, statement_of_line};

    /// The line with this number and these bytes.
    pub fn new(alloc: Global, number: u32, text: &'a [u8]) -> Result<WordedLine<'a>, NoMemory>
        ensures { IfOk result (λ line.
            plain_line line ≡ record { number = number; text = text.now }) }
    {
        let words = words_of(alloc, before_comment(text))?;
        Ok(WordedLine {
            number,
            text,
            words,
        })
    }

    /// The word with this number behind the first; nothing where there is none.
    pub fn operand(&self, index: usize) -> &'a [u8]
        ensures { result.now ≡ operand index (statement_of_line self.now) }
    {
        match self.words.get(index) {
            Some(word) => *word,
            None => &[],
        }
    }

    /// How many words it has.
    pub fn count(&self) -> usize
        ensures { result ≡ length (line_words (before_comment self.now.text.now)) }
    {
        self.words.len()
    }
}
