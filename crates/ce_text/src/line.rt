//! The parts of a line.

ghost use Rattle.std.specs.Prelude.{◌≡◌, ◌==◌, ◌<◌, ◌≤◌, length, position, IfSome};
ghost use Rattle.std.specs.Option.{option_map};
ghost use Rattle.ce_text.specs.Bytes.{is_blank, is_line_feed};
ghost use Rattle.ce_text.specs.Line.{cut_parts, without_front_blanks, without_end_blanks, without_outer_blanks, before_comment};

use crate::bytes::is_blank;

fn index_of(bytes: &[u8], mark: u8) -> Option<usize>
    ensures { result ≡ position (λ byte. byte == mark) bytes.now }
{
    bytes.iter().position(|byte| *byte == mark)
}

fn index_of_blank(bytes: &[u8]) -> Option<usize>
    ensures { result ≡ position is_blank bytes.now }
{
    bytes.iter().position(|byte| is_blank(*byte))
}

/// What stands before the first `mark`, and what stands behind it, where there is one.
pub fn cut_at(bytes: &[u8], mark: u8) -> (&[u8], Option<&[u8]>)
    ensures parts { (result.0.now, option_map (λ rest. rest.now) result.1)
        ≡ cut_parts (λ byte. byte == mark) bytes.now }
    ensures shorter { IfSome result.1 (λ rest. length rest.now < length bytes.now) }
{
    match index_of(bytes, mark) {
        None => (bytes, None),
        Some(index) => (&bytes[..index], Some(&bytes[index + 1..])),
    }
}

/// What stands before the first blank, and what stands behind it, where there is one.
pub fn cut_at_blank(bytes: &[u8]) -> (&[u8], Option<&[u8]>)
    ensures parts { (result.0.now, option_map (λ rest. rest.now) result.1)
        ≡ cut_parts is_blank bytes.now }
    ensures shorter { IfSome result.1 (λ rest. length rest.now < length bytes.now) }
{
    match index_of_blank(bytes) {
        None => (bytes, None),
        Some(index) => (&bytes[..index], Some(&bytes[index + 1..])),
    }
}

/// The first line of a text, and what stands behind its line feed, where there is one.
pub fn next_line(text: &[u8]) -> (&[u8], Option<&[u8]>)
    ensures parts { (result.0.now, option_map (λ rest. rest.now) result.1)
        ≡ cut_parts is_line_feed text.now }
    ensures shorter { IfSome result.1 (λ rest. length rest.now < length text.now) }
{
    cut_at(text, b'\n')
}

pub(crate) fn without_front_blanks(bytes: &[u8]) -> &[u8]
    ensures value { result.now ≡ without_front_blanks bytes.now }
    ensures shorter { length result.now ≤ length bytes.now }
{
    let mut rest = bytes;
    while let [first, others @ ..] = rest {
        if !is_blank(*first) {
            break;
        }
        rest = others;
    }
    rest
}

fn without_end_blanks(bytes: &[u8]) -> &[u8]
    ensures { result.now ≡ without_end_blanks bytes.now }
{
    let mut rest = bytes;
    while let [others @ .., last] = rest {
        if !is_blank(*last) {
            break;
        }
        rest = others;
    }
    rest
}

/// The bytes without the blanks at their ends.
#[tactic(auto, unfolding(crate::specs::Line::without_outer_blanks))]
pub fn without_outer_blanks(bytes: &[u8]) -> &[u8]
    ensures { result.now ≡ without_outer_blanks bytes.now }
{
    without_end_blanks(without_front_blanks(bytes))
}

/// What a line has before its comment, which begins with `#`.
#[tactic(auto, unfolding(crate::specs::Line::before_comment))]
pub fn before_comment(line: &[u8]) -> &[u8]
    ensures { result.now ≡ before_comment line.now }
{
    cut_at(line, b'#').0
}
