//! What is left of a text.
ghost use Rattle.std.specs.Prelude.{◌+◌, ◌<◌, ◌≤◌, length, option_map};
ghost use Rattle.ce_text.specs.declared.limits.TheConstants.{TEXT_LIMIT};
ghost use Rattle.ce_script.specs.Lines.{rest_size};

use ce_text::next_line;

/// The lines that are left to read.
#[derive(Clone, Copy)]
pub struct Rest<'a> {
    /// How many lines stand before them.
    pub line_count: u32,
    /// Their bytes; none where no line is left.
    pub text: Option<&'a [u8]>,
    ghost counted: { line_count + rest_size (option_map (λ bytes. bytes.now) text) ≤ TEXT_LIMIT },
}

/// The body of an image.
#[derive(Clone, Copy)]
pub struct Body<'a> {
    /// The number of the image's line.
    pub line: u32,
    /// The bytes of its lines, each with its line feed.
    pub text: &'a [u8],
    ghost counted: { line + length text.now < TEXT_LIMIT },
}

impl<'a> Rest<'a> {
    ghost use Rattle.std.specs.Prelude.{◌≡◌, [], Some, None, unwrap_or, MatchOption};
    ghost use Rattle.ce_script.specs.ReadLines.{rest_text, IsFirstLine};

    /// All lines of a text.
    pub fn new(text: &'a [u8]) -> Rest<'a>
        requires { length text.now < TEXT_LIMIT }
        ensures before { result.line_count ≡ 0 }
        ensures text { rest_text result ≡ Some text.now }
    {
        Rest {
            line_count: 0,
            text: Some(text),
        }
    }

    /// The first line, and the lines behind it.
    pub fn first_line(self) -> Option<(&'a [u8], Rest<'a>)>
        ensures { MatchOption result (rest_text self.entry ≡ None)
            (λ line_and_rest. IsFirstLine self.entry line_and_rest.0.now line_and_rest.1) }
    {
        let bytes = self.text?;
        let (line, tail) = next_line(bytes);
        let next = Rest {
            line_count: self.line_count + 1,
            text: tail,
        };
        Some((line, next))
    }

    /// How many bytes they have.
    pub fn byte_count(self) -> usize
        ensures { result ≡ length (unwrap_or (rest_text self.entry) []) }
    {
        match self.text {
            Some(bytes) => bytes.len(),
            None => 0,
        }
    }
}
