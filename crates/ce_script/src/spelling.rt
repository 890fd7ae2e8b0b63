//! Words as numbers, names and bytes.
ghost use Rattle.std.specs.Prelude.{◌≡◌, ◌≤◌, ◌+◌, ◌*◌, ◌++◌, ◌<◌, IfOk, OnOk, IfSome, IsTrue, option_map, length};
ghost use Rattle.std.specs.Int.{w32, to_le_bytes};
ghost use Rattle.ce_script.specs.Names.{is_name};
ghost use Rattle.ce_script.specs.Spellings.{bounded_number, are_byte_digits, digit_bytes, instruction_in, data_in};

use ce_model::{BLOCK_ROOM, Bytes, NoMemory};
use ce_text::{are_hex_digits, hex_digit, is_letter, number_of_digits};
use std::alloc::{AllocError, Global};

/// How many digits a number has at most.
const NUMBER_DIGITS: usize = 10;

/// How many bytes a name has at most.
const NAME_ROOM: usize = 16;

/// How many digits an instruction word has.
const INSTRUCTION_DIGITS: usize = 8;

/// How many digits the bytes of a message have at most.
const DATA_DIGITS: usize = 2 * BLOCK_ROOM as usize;

/// The number that a word writes in 1 to `NUMBER_DIGITS` decimal digits, where it is at most
/// `greatest`.
#[tactic(auto, unfolding(crate::specs::Spellings::bounded_number))]
pub fn bounded_number(word: &[u8], greatest: u32) -> Option<u32>
    ensures { result ≡ bounded_number greatest word.now }
{
    if word.len() > NUMBER_DIGITS {
        return None;
    }
    let number = number_of_digits(word, 10, u64::from(greatest))?;
    Some(number as u32)
}

/// Whether a word is a name: a letter, and letters, digits and `_` behind it, `NAME_ROOM` bytes at
/// most.
#[tactic(auto, unfolding(crate::specs::Names::is_name, crate::specs::Names::name_room))]
pub fn is_name(word: &[u8]) -> bool
    ensures { result ≡ is_name word.now }
{
    match word {
        [] => false,
        [first, ..] => is_letter(*first) && ce_text::is_name(word, NAME_ROOM),
    }
}

/// Whether a word is hexadecimal digits, two for each byte.
pub fn are_byte_digits(word: &[u8]) -> bool
    ensures { result ≡ are_byte_digits word.now }
{
    are_hex_digits(word) && word.len() % 2 == 0
}

/// Adds the bytes that hexadecimal digits write.
pub fn push_digit_bytes(bytes: &mut Vec<u8>, digits: &[u8]) -> Result<(), NoMemory>
    requires { IsTrue (are_byte_digits digits.now) }
    ensures { OnOk result (bytes.new.items ≡ bytes.old.items ++ digit_bytes digits.now) }
{
    let mut rest = digits;
    while let [high, low, others @ ..] = rest {
        bytes.push(hex_digit(*high) * 16 + hex_digit(*low))?;
        rest = others;
    }
    Ok(())
}

/// The instruction word that a word of `INSTRUCTION_DIGITS` hexadecimal digits writes.
pub fn instruction_in(word: &[u8]) -> Option<u32>
    ensures { option_map (to_le_bytes w32) result ≡ instruction_in word.now }
{
    if word.len() != INSTRUCTION_DIGITS {
        return None;
    }
    let number = number_of_digits(word, 16, u64::from(u32::MAX))?;
    Some(number as u32)
}

/// The bytes of a message: `-`, or an even number of hexadecimal digits, `DATA_DIGITS` at most.
pub fn data_in(alloc: Global, word: &[u8]) -> Result<Option<Bytes>, NoMemory>
    ensures { IfOk result (λ bytes. bytes ≡ data_in word.now) }
{
    let mut bytes = Vec::new(alloc);
    if word == b"-".as_slice() {
        return Ok(Some(Bytes::from_vec(bytes)));
    }
    if word.len() > DATA_DIGITS {
        return Ok(None);
    }
    if !are_byte_digits(word) {
        return Ok(None);
    }
    push_digit_bytes(&mut bytes, word)?;
    Ok(Some(Bytes::from_vec(bytes)))
}
