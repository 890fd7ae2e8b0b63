//! Names.

ghost use Rattle.std.specs.Prelude.{◌≡◌};
ghost use Rattle.std.specs.List.{list_all};
ghost use Rattle.ce_text.specs.Bytes.{is_name_byte};
ghost use Rattle.ce_text.specs.Name.{is_name};

use crate::bytes::{is_digit, is_name_byte};

fn are_name_bytes(bytes: &[u8]) -> bool
    ensures { result ≡ list_all is_name_byte bytes.now }
{
    bytes.iter().all(|byte| is_name_byte(*byte))
}

/// Whether the bytes are a name: 1 to `greatest_length` letters, digits and `_`, no digit first.
#[tactic(auto, unfolding(crate::specs::Name::is_name))]
pub fn is_name(bytes: &[u8], greatest_length: usize) -> bool
    ensures { result ≡ is_name greatest_length bytes.now }
{
    match bytes {
        [] => false,
        [first, ..] => !is_digit(*first) && are_name_bytes(bytes) && bytes.len() <= greatest_length,
    }
}
