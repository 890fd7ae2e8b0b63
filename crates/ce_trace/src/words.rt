//! Pieces of a text.
ghost use Rattle.std.specs.Prelude.{◌≡◌, [], ◌∷◌, ◌++◌, OnOk};
ghost use Rattle.ce_text.specs.Bytes.{space, line_feed};

use std::alloc::AllocError;

/// Some bytes.
pub(crate) fn push(text: &mut Vec<u8>, piece: &[u8]) -> Result<(), AllocError>
    ensures { OnOk result (text.new.items ≡ text.old.items ++ piece.now) }
{
    text.extend_from_slice(piece)
}

/// A word, with a space before it.
pub(crate) fn push_word(text: &mut Vec<u8>, word: &[u8]) -> Result<(), AllocError>
    ensures { OnOk result (text.new.items ≡ text.old.items ++ (space ∷ word.now)) }
{
    text.extend_from_slice(b" ")?;
    text.extend_from_slice(word)
}

/// The end of a line.
pub(crate) fn push_line_feed(text: &mut Vec<u8>) -> Result<(), AllocError>
    ensures { OnOk result (text.new.items ≡ text.old.items ++ line_feed ∷ []) }
{
    text.extend_from_slice(b"\n")
}
