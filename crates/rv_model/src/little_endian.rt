//! Numbers of 1, 2 or 4 bytes, the lowest byte first.
ghost use Rattle.std.specs.Prelude.{◌≡◌, ◌<◌, ◌≤◌, ◌+◌, ◌^◌, ◌++◌, length, take, drop};
ghost use Rattle.rv_model.specs.declared.limits.TheConstants.{WORD_SIZE};
ghost use Rattle.rv_model.specs.LittleEndian.{number_at, with_number_at};

use crate::AccessSize;

/// The number in the bytes from `offset` on, of which there are `size`.
#[tactic(auto, using(crate::proofs::Numbers::number_lemmas))]
pub fn number_at(bytes: &[u8], offset: usize, size: AccessSize) -> u32
    requires within { offset + size.bytes ≤ length bytes.now }
    ensures value { result ≡ number_at bytes.now offset size.bytes }
    ensures fits { result < 256 ^ size.bytes }
{
    match size.bytes {
        1 => u32::from(bytes[offset]),
        2 => u32::from(bytes[offset]) + u32::from(bytes[offset + 1]) * 0x100,
        _ => word_at(bytes, offset),
    }
}

/// The number in the four bytes from `offset` on.
#[tactic(auto, using(crate::proofs::Numbers::number_lemmas))]
pub fn word_at(bytes: &[u8], offset: usize) -> u32
    requires { offset + WORD_SIZE ≤ length bytes.now }
    ensures { result ≡ number_at bytes.now offset WORD_SIZE }
{
    u32::from_le_bytes([
        bytes[offset],
        bytes[offset + 1],
        bytes[offset + 2],
        bytes[offset + 3],
    ])
}

/// Writes the lowest bytes of `value` from `offset` on, `size` of them.
#[tactic(auto, unfolding(crate::specs::LittleEndian::with_number_at))]
pub fn put_number(bytes: &mut [u8], offset: usize, size: AccessSize, value: u32)
    requires within { offset + size.bytes ≤ length bytes.old }
    ensures { bytes.new ≡ with_number_at bytes.old offset size.bytes value }
{
    let [b0, b1, b2, b3] = value.to_le_bytes();
    match size.bytes {
        1 => put(bytes, offset, &[b0]),
        2 => put(bytes, offset, &[b0, b1]),
        _ => put(bytes, offset, &[b0, b1, b2, b3]),
    }
}

/// Writes `part` from `offset` on.
fn put(bytes: &mut [u8], offset: usize, part: &[u8])
    requires { offset + length part.now ≤ length bytes.old }
    ensures { bytes.new ≡ take offset bytes.old
        ++ (part.now ++ drop (offset + length part.now) bytes.old) }
{
    bytes[offset..offset + part.len()].copy_from_slice(part);
}
