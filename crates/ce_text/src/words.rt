//! Words between blanks.

ghost use Rattle.std.specs.Prelude.{◌≡◌, ◌∷◌, [], ◌<◌, length, MatchOption, IfSome};
ghost use Rattle.ce_text.specs.Words.{line_words};

use crate::line::{cut_at_blank, without_front_blanks};

/// The first word of a line, and what follows it; none where the line has no word.
pub fn next_word(line: &[u8]) -> Option<(&[u8], &[u8])>
    ensures words { MatchOption result (line_words line.now ≡ [])
        (λ word_and_rest. line_words line.now
        ≡ word_and_rest.0.now ∷ line_words word_and_rest.1.now) }
    ensures shorter { IfSome result
        (λ word_and_rest. length word_and_rest.1.now < length line.now) }
{
    let rest = without_front_blanks(line);
    if rest.is_empty() {
        return None;
    }
    match cut_at_blank(rest) {
        (word, None) => Some((word, &[])),
        (word, Some(others)) => Some((word, others)),
    }
}
