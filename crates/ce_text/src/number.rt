//! Numbers, and the digits that write them.

ghost use Rattle.std.specs.Prelude.{◌≡◌, ◌≤◌, ◌<◌, ◌^◌, IfSome, nat_lt};
ghost use Rattle.std.specs.List.{list_all};
ghost use Rattle.std.specs.Char.{digit_value};
ghost use Rattle.ce_text.specs.Number.{are_digits, number_of_digits};

/// The number that digits of a base from 2 to 16 write, letters of either case, and `None` where
/// they are no digits, none at all, or write more than `greatest`, which is below 2^32. Leading
/// zeros are allowed.
#[tactic(auto, unfolding(crate::specs::Number::number_of_digits))]
pub fn number_of_digits(digits: &[u8], base: u32, greatest: u64) -> Option<u64>
    requires least_base { 2 ≤ base }
    requires greatest_base { base ≤ 16 }
    requires small { greatest < 2 ^ 32 }
    ensures value { result ≡ number_of_digits base greatest digits.now }
    ensures small { IfSome result (λ number. number ≤ greatest) }
{
    if digits.is_empty() {
        return None;
    }
    let mut value: u64 = 0;
    for byte in digits {
        let digit = (*byte as char).to_digit(base)?;
        value = value * u64::from(base) + u64::from(digit);
        if value > greatest {
            return None;
        }
    }
    Some(value)
}

fn all_hex_digits(bytes: &[u8]) -> bool
    ensures { result ≡ list_all (λ byte. nat_lt (digit_value byte) 16) bytes.now }
{
    bytes.iter().all(|byte| (*byte as char).is_digit(16))
}

/// Whether the bytes are hexadecimal digits, letters of either case, and one at least.
pub fn are_hex_digits(bytes: &[u8]) -> bool
    ensures { result ≡ are_digits 16 bytes.now }
{
    match bytes {
        [] => false,
        [_, ..] => all_hex_digits(bytes),
    }
}

/// What a hexadecimal digit stands for.
pub fn hex_digit(byte: u8) -> u8
    requires { digit_value byte < 16 }
    ensures { result ≡ digit_value byte }
{
    match (byte as char).to_digit(16) {
        Some(digit) => digit as u8,
        None => unreachable!(),
    }
}
