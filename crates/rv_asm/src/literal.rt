//! Numbers as they are written.

ghost use Rattle.std.specs.Prelude.{◌≡◌};
ghost use Rattle.rv_asm.specs.Literal.{literal_of, unsigned_literal, digits_behind_prefix};

use ce_text::number_of_digits;

fn unsigned_literal(bytes: &[u8]) -> Option<i64>
    ensures { result ≡ unsigned_literal (digits_behind_prefix bytes.now) bytes.now }
{
    let greatest = u64::from(u32::MAX);
    let number = match bytes {
        [b'0', b'x', digits @ ..] => number_of_digits(digits, 16, greatest)?,
        _ => number_of_digits(bytes, 10, greatest)?,
    };
    Some(number as i64)
}

/// The number that bytes write, from -2^31 to 2^32 - 1: hexadecimal digits behind `0x`, or decimal
/// digits, also behind `-`.
#[tactic(auto, unfolding(crate::specs::Literal::literal_of))]
pub fn literal_of(bytes: &[u8]) -> Option<i64>
    ensures { result ≡ literal_of bytes.now }
{
    match bytes {
        [b'-', digits @ ..] => {
            let number = number_of_digits(digits, 10, 1 << 31)?;
            Some(-(number as i64))
        }
        _ => unsigned_literal(bytes),
    }
}
