//! The fields of an instruction word, and the immediates that lie in it (RISC-V unprivileged
//! specification, "Base Instruction Formats" and "Immediate Encoding Variants").
ghost use Rattle.std.specs.Prelude.{◌≡◌, ◌<◌};
ghost use Rattle.rv_model.specs.Words.{bits_of, opcode_of, rd_of, funct3_of, rs1_of, rs2_of, funct7_of, i_immediate, s_immediate, b_immediate, u_immediate, j_immediate};

/// The `width` bits of a word from bit `low` up.
#[tactic(auto, using(crate::proofs::Masks::masked))]
#[inline]
pub fn bits(word: u32, low: u32, width: u32) -> u32
    requires low { low < 32 }
    requires width { width < 32 }
    ensures { result ≡ bits_of low width word }
{
    word >> low & (1 << width) - 1
}

/// The opcode: bits 6..0.
#[inline]
pub fn opcode(word: u32) -> u32
    ensures { result ≡ opcode_of word }
{
    bits(word, 0, 7)
}

/// The register that is written: bits 11..7.
#[inline]
pub fn rd(word: u32) -> u8
    ensures { result ≡ rd_of word }
{
    bits(word, 7, 5) as u8
}

/// The minor opcode: bits 14..12.
#[inline]
pub fn funct3(word: u32) -> u32
    ensures { result ≡ funct3_of word }
{
    bits(word, 12, 3)
}

/// The first register that is read: bits 19..15.
#[inline]
pub fn rs1(word: u32) -> u8
    ensures { result ≡ rs1_of word }
{
    bits(word, 15, 5) as u8
}

/// The second register that is read: bits 24..20.
#[inline]
pub fn rs2(word: u32) -> u8
    ensures { result ≡ rs2_of word }
{
    bits(word, 20, 5) as u8
}

/// The second minor opcode: bits 31..25.
#[inline]
pub fn funct7(word: u32) -> u32
    ensures { result ≡ funct7_of word }
{
    bits(word, 25, 7)
}

/// The immediate of the I format.
#[inline]
pub fn i_immediate(word: u32) -> i32
    ensures { result ≡ i_immediate word }
{
    word.cast_signed() >> 20
}

/// The immediate of the S format.
#[inline]
pub fn s_immediate(word: u32) -> i32
    ensures { result ≡ s_immediate word }
{
    (word.cast_signed() >> 25) * 0x20 + bits(word, 7, 5) as i32
}

/// The immediate of the B format.
#[inline]
pub fn b_immediate(word: u32) -> i32
    ensures { result ≡ b_immediate word }
{
    let low = (bits(word, 7, 1) << 11) + (bits(word, 25, 6) << 5) + (bits(word, 8, 4) << 1);
    (word.cast_signed() >> 31) * 0x1000 + low as i32
}

/// The immediate of the U format.
#[inline]
pub fn u_immediate(word: u32) -> u32
    ensures { result ≡ u_immediate word }
{
    bits(word, 12, 20) << 12
}

/// The immediate of the J format.
#[inline]
pub fn j_immediate(word: u32) -> i32
    ensures { result ≡ j_immediate word }
{
    let low = (bits(word, 12, 8) << 12) + (bits(word, 20, 1) << 11) + (bits(word, 21, 10) << 1);
    (word.cast_signed() >> 31) * 0x10_0000 + low as i32
}
