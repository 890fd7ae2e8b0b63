//! Tokens.

ghost use Rattle.std.specs.Prelude.{◌≡◌};
ghost use Rattle.std.specs.List.{list_all};
ghost use Rattle.rv_asm.specs.Line.{is_token_byte, is_token};

use ce_text::is_blank;

fn is_token_byte(byte: u8) -> bool
    ensures { result ≡ is_token_byte byte }
{
    !(is_blank(byte) || byte == b'(' || byte == b')' || byte == b',')
}

fn are_token_bytes(bytes: &[u8]) -> bool
    ensures { result ≡ list_all is_token_byte bytes.now }
{
    bytes.iter().all(|byte| is_token_byte(*byte))
}

/// Whether the bytes are one token: at least one byte, and no blank, bracket or comma.
#[tactic(auto, unfolding(crate::specs::Line::is_token))]
pub fn is_token(bytes: &[u8]) -> bool
    ensures { result ≡ is_token bytes.now }
{
    match bytes {
        [] => false,
        [_, ..] => are_token_bytes(bytes),
    }
}
