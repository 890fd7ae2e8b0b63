//! Numbers and bytes as digits.
ghost use Rattle.std.specs.Prelude.{◌≡◌, ◌<◌, [], ◌∷◌, ◌++◌, OnOk, decimal, slice_index};
ghost use Rattle.ce_text.specs.Bytes.{space};
ghost use Rattle.hex.specs.Hex.{encode_lower, lower_digits};
ghost use Rattle.ce_script.specs.TextParts.{bytes_text, word_text};
ghost use Rattle.ce_script.specs.EntryText.{number_text};

use crate::words::push;
use itoa::Buffer;
use std::alloc::AllocError;

/// The sixteen digits.
const DIGITS: &[u8; 16] = b"0123456789abcdef";

/// A number, in decimal.
pub(crate) fn push_decimal(text: &mut Vec<u8>, n: u64) -> Result<(), AllocError>
    ensures { OnOk result (text.new.items ≡ text.old.items ++ decimal n) }
{
    push(text, Buffer::new().format(n).as_bytes())
}

/// A number as a word, with a space before it.
pub(crate) fn push_number(text: &mut Vec<u8>, n: u64) -> Result<(), AllocError>
    ensures { OnOk result (text.new.items ≡ text.old.items ++ (space ∷ decimal n)) }
{
    push(text, b" ")?;
    push_decimal(text, n)
}

/// Words, and a number as a word behind them.
pub(crate) fn push_with_number(
    text: &mut Vec<u8>,
    words: &[u8],
    number: u32,
) -> Result<(), AllocError>
    ensures { OnOk result
        (text.new.items ≡ text.old.items ++ (words.now ++ (space ∷ decimal number))) }
{
    push(text, words)?;
    push_number(text, u64::from(number))
}

/// A number as a word, or `-` for none, with a space before it.
pub(crate) fn push_some_number(text: &mut Vec<u8>, n: Option<u64>) -> Result<(), AllocError>
    ensures { OnOk result (text.new.items ≡ text.old.items ++ (space ∷ number_text n)) }
{
    match n {
        None => push(text, b" -"),
        Some(n) => push_number(text, n),
    }
}

/// Bytes, two hexadecimal digits each.
#[tactic(auto, using(crate::proofs::Joined::hex_more, crate::proofs::Joined::hex_all))]
fn push_hex(text: &mut Vec<u8>, bytes: &[u8]) -> Result<(), AllocError>
    ensures { OnOk result (text.new.items ≡ text.old.items ++ encode_lower bytes.now) }
{
    for byte in bytes {
        push_byte(text, *byte)?;
    }
    Ok(())
}

/// A byte, as two hexadecimal digits.
#[tactic(auto, unfolding(hex::specs::Hex::encode_with))]
fn push_byte(text: &mut Vec<u8>, byte: u8) -> Result<(), AllocError>
    ensures { OnOk result (text.new.items ≡ text.old.items ++ encode_lower (byte ∷ [])) }
{
    text.push(digit(byte / 16))?;
    text.push(digit(byte % 16))?;
    Ok(())
}

/// A hexadecimal digit.
fn digit(n: u8) -> u8
    requires { n < 16 }
    ensures { result ≡ slice_index lower_digits n }
{
    DIGITS[n as usize]
}

/// Data as a word, two digits for each byte, or `-` for none, with a space before it.
pub(crate) fn push_data(text: &mut Vec<u8>, bytes: &[u8]) -> Result<(), AllocError>
    ensures { OnOk result (text.new.items ≡ text.old.items ++ (space ∷ bytes_text bytes.now)) }
{
    if bytes.is_empty() {
        return push(text, b" -");
    }
    push(text, b" ")?;
    push_hex(text, bytes)
}

/// An address or an instruction word, with a space before it.
pub(crate) fn push_address(text: &mut Vec<u8>, n: u32) -> Result<(), AllocError>
    ensures { OnOk result (text.new.items ≡ text.old.items ++ (space ∷ word_text n)) }
{
    push(text, b" 0x")?;
    push_hex(text, &n.to_be_bytes())
}
