//! Kinds of bytes.

ghost use Rattle.std.specs.Prelude.{◌≡◌, ◌==◌, ◌∷◌, []};
ghost use Rattle.std.specs.List.{list_all, list_any};
ghost use Rattle.ce_text.specs.Bytes.{is_blank, is_plain, is_digit, is_letter, is_name_byte};

/// Whether a byte is a blank: a space, a tab or a carriage return.
pub fn is_blank(byte: u8) -> bool
    ensures { result ≡ is_blank byte }
{
    byte == b' ' || byte == b'\t' || byte == b'\r'
}

/// Whether a byte may stand outside a comment: a blank, or from 0x21 to 0x7E.
pub fn is_plain(byte: u8) -> bool
    ensures { result ≡ is_plain byte }
{
    is_blank(byte) || (0x21 <= byte && byte <= 0x7E)
}

/// Whether all bytes may stand outside a comment.
pub fn are_plain(bytes: &[u8]) -> bool
    ensures { result ≡ list_all is_plain bytes.now }
{
    bytes.iter().all(|byte| is_plain(*byte))
}

/// Whether `mark` is among the bytes.
pub fn has_byte(bytes: &[u8], mark: u8) -> bool
    ensures { result ≡ list_any (λ byte. byte == mark) bytes.now }
{
    bytes.iter().any(|byte| *byte == mark)
}

/// Whether a byte is a digit of ASCII.
pub fn is_digit(byte: u8) -> bool
    ensures { result ≡ is_digit byte }
{
    b'0' <= byte && byte <= b'9'
}

/// Whether a byte is a letter of ASCII.
pub fn is_letter(byte: u8) -> bool
    ensures { result ≡ is_letter byte }
{
    (b'A' <= byte && byte <= b'Z') || (b'a' <= byte && byte <= b'z')
}

/// Whether a byte may stand in a name: a letter, a digit or `_`.
pub(crate) fn is_name_byte(byte: u8) -> bool
    ensures { result ≡ is_name_byte byte }
{
    is_letter(byte) || is_digit(byte) || byte == b'_'
}
