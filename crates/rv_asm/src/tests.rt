use crate::{AsmFault, AsmKind, assemble};
use ce_text::TEXT_LIMIT;
use rv_model::NoMemory;
use std::alloc::Global;
use std::fmt::Write;
use std::process::Abort;
use std::test::Fail;

/// The loaded bytes of the image that a text gives, or its fault.
fn bytes_of(alloc: Global, text: &[u8]) -> Result<Vec<u8>, AsmFault> {
    if text.len() >= TEXT_LIMIT {
        return Ok(Vec::new(alloc));
    }
    let image = assemble(alloc, text)?;
    Vec::from_slice(alloc, image.loaded()).map_err(|_| AsmFault {
        line: 0,
        kind: AsmKind::Memory(NoMemory),
    })
}

/// Each text is refused at this line, as this kind. Where memory runs out, that is the answer.
fn check_refusals(
    rt: &impl Abort,
    alloc: Global,
    rows: &[(&str, u32, AsmKind)],
) -> Result<(), Fail> {
    for (text, line, kind) in rows {
        let (line, kind) = (*line, *kind);
        match bytes_of(alloc, text.as_bytes()) {
            Ok(_) => panic!(rt; "accepted: {text}"),
            Err(
                AsmFault {
                    line: _,
                    kind: AsmKind::Memory(cause),
                },
            ) => return Err(cause.into()),
            Err(fault) => assert_eq!(rt; fault, AsmFault { line, kind }, "{text}"),
        }
    }
    Ok(())
}

/// The text gives these bytes.
fn check_bytes(rt: &impl Abort, alloc: Global, text: &str, wanted: &[u8]) -> Result<(), Fail> {
    let bytes = bytes_of(alloc, text.as_bytes())?;
    assert_eq!(rt; bytes.as_slice(), wanted, "{text}");
    Ok(())
}

/// The text gives these words, little-endian.
fn check_words(rt: &impl Abort, alloc: Global, text: &str, words: &[u32]) -> Result<(), Fail> {
    let mut wanted = Vec::new(alloc);
    for word in words {
        wanted.extend_from_slice(&word.to_le_bytes())?;
    }
    check_bytes(rt, alloc, text, &wanted)
}

/// Each line gives its word, where the lines are one text.
fn check_lines(rt: &impl Abort, alloc: Global, rows: &[(&str, u32)]) -> Result<(), Fail> {
    let mut text = String::new(alloc);
    for (line, _) in rows {
        write!(&mut text, "{line}\n")?;
    }
    let bytes = bytes_of(alloc, text.as_bytes())?;
    let mut words = bytes.as_slice().chunks(4);
    for (line, word) in rows {
        assert_eq!(rt; words.next(), Some(word.to_le_bytes().as_slice()), "{line}");
    }
    assert_eq!(rt; words.next(), None);
    Ok(())
}

/// Upper numbers, jumps, branches, loads and stores once each. These words, and those of the next
/// rows, are those of another assembler for RV32I.
#[test]
fn jumps_branches_and_accesses(rt: HostRuntime) -> Result<(), Fail> {
    let rows = [
        ("x: lui a0, 1048575", 0xFFFF_F537),
        ("auipc t6, 0", 0x0000_0F97),
        ("jal ra, x", 0xFF9F_F0EF),
        ("jalr s11, -2048(sp)", 0x8001_0DE7),
        ("beq a0, a1, x", 0xFEB5_08E3),
        ("bne s0, s1, x", 0xFE94_16E3),
        ("blt t0, t1, x", 0xFE62_C4E3),
        ("bge x0, x31, x", 0xFFF0_52E3),
        ("bltu fp, gp, x", 0xFE34_60E3),
        ("bgeu tp, ra, x", 0xFC12_7EE3),
        ("lb a0, -1(a1)", 0xFFF5_8503),
        ("lh a2, 2047(a3)", 0x7FF6_9603),
        ("lw a4, 0(a5)", 0x0007_A703),
        ("lbu a6, 1(a7)", 0x0018_C803),
        ("lhu s2, 2(s3)", 0x0029_D903),
        ("sb s4, -2048(s5)", 0x814A_8023),
        ("sh s6, 2047(s7)", 0x7F6B_9FA3),
        ("sw s8, 31(s9)", 0x018C_AFA3),
    ];
    check_lines(&rt, rt.alloc(), &rows)
}

/// Operations, and the statements without operands and for other ones, once each.
#[test]
fn operations_and_other_statements(rt: HostRuntime) -> Result<(), Fail> {
    let rows = [
        ("x: addi s10, zero, -2048", 0x8000_0D13),
        ("slti t2, t3, 2047", 0x7FFE_2393),
        ("sltiu t4, t5, -1", 0xFFFF_3E93),
        ("xori a0, a0, 1", 0x0015_4513),
        ("ori a1, a1, 2", 0x0025_E593),
        ("andi a2, a2, 3", 0x0036_7613),
        ("slli a3, a3, 31", 0x01F6_9693),
        ("srli a4, a4, 0", 0x0007_5713),
        ("srai a5, a5, 17", 0x4117_D793),
        ("add a0, a1, a2", 0x00C5_8533),
        ("sll a0, a1, a2", 0x00C5_9533),
        ("slt a0, a1, a2", 0x00C5_A533),
        ("sltu a0, a1, a2", 0x00C5_B533),
        ("xor a0, a1, a2", 0x00C5_C533),
        ("srl a0, a1, a2", 0x00C5_D533),
        ("or a0, a1, a2", 0x00C5_E533),
        ("and a0, a1, a2", 0x00C5_F533),
        ("sub a0, a1, a2", 0x40C5_8533),
        ("sra a0, a1, a2", 0x40C5_D533),
        ("fence", 0x0FF0_000F),
        ("ecall", 0x0000_0073),
        ("ebreak", 0x0010_0073),
        ("mv a0, a1", 0x0005_8513),
        ("j x", 0xFA5F_F06F),
        ("call x", 0xFA1F_F0EF),
        ("ret", 0x0000_8067),
        ("nop", 0x0000_0013),
    ];
    check_lines(&rt, rt.alloc(), &rows)
}

/// `li` has one instruction from -2,048 to 2,047 modulo 2^32, and else two; `la` always has two.
#[test]
fn large_numbers(rt: HostRuntime) -> Result<(), Fail> {
    let alloc = rt.alloc();
    check_words(&rt, alloc, "li a1, 2047", &[0x7FF0_0593])?;
    check_words(&rt, alloc, "li a1, -2048", &[0x8000_0593])?;
    check_words(&rt, alloc, "li a1, 0xFFFFFFFF", &[0xFFF0_0593])?;
    check_words(&rt, alloc, "li a1, 2048", &[0x0000_15B7, 0x8005_8593])?;
    check_words(&rt, alloc, "li a1, -2049", &[0xFFFF_F5B7, 0x7FF5_8593])?;
    check_words(&rt, alloc, "li a1, 0x12345FFF", &[0x1234_65B7, 0xFFF5_8593])?;
    check_words(&rt, alloc, "li a1, 0x7FFFFFFF", &[0x8000_05B7, 0xFFF5_8593])?;
    check_words(&rt, alloc, "li a1, 0x80000000", &[0x8000_05B7, 0x0005_8593])?;
    check_words(&rt, alloc, "x: la a0, x", &[0x0001_0537, 0x0005_0513])?;
    check_words(
        &rt,
        alloc,
        "la a0, x\nx: nop",
        &[0x0001_0537, 0x0085_0513, 0x0000_0013],
    )
}

/// Data, names and numbers.
#[test]
fn data(rt: HostRuntime) -> Result<(), Fail> {
    let alloc = rt.alloc();
    check_words(
        &rt,
        alloc,
        ".equ n, -1\nx: .word 1, n, x, y, 0xAbCdEf01\ny:",
        &[1, 0xFFFF_FFFF, 0x1_0000, 0x1_0014, 0xABCD_EF01],
    )?;
    check_bytes(
        &rt,
        alloc,
        ".byte -128, 255, 0x7F,-1\n.zero 3",
        &[128, 255, 127, 255, 0, 0, 0],
    )?;
    check_words(
        &rt,
        alloc,
        "\t# a comment: with , ( ) and \x01\r\n nop # ,\n\nlabel :\n",
        &[0x0000_0013],
    )
}

/// Whole programs: one that sends, one that receives for ever, one that waits for a message and
/// leaves.
#[test]
fn programs(rt: HostRuntime) -> Result<(), Fail> {
    let alloc = rt.alloc();
    let sender = [
        ("li a0, 8", 0x0080_0513),
        ("li a7, 1", 0x0010_0893),
        ("ecall", 0x0000_0073),
        ("mv s0, a0", 0x0005_0413),
        ("li t0, 7", 0x0070_0293),
        ("sw t0, 0(s0)", 0x0054_2023),
        ("li a1, -1", 0xFFF0_0593),
        ("li a2, 0", 0x0000_0613),
        ("li a7, 4", 0x0040_0893),
        ("ecall", 0x0000_0073),
        ("lw t1, 0(s0)", 0x0004_2303),
    ];
    let receiver = [
        ("loop: li a7, 7", 0x0070_0893),
        ("ecall", 0x0000_0073),
        ("li a1, -1", 0xFFF0_0593),
        ("li a2, 0", 0x0000_0613),
        ("li a7, 4", 0x0040_0893),
        ("ecall", 0x0000_0073),
        ("j loop", 0xFE9F_F06F),
    ];
    let waiter = [
        ("li a7, 7", 0x0070_0893),
        ("ecall", 0x0000_0073),
        ("li a7, 13", 0x00D0_0893),
        ("ecall", 0x0000_0073),
    ];
    check_lines(&rt, alloc, &sender)?;
    check_lines(&rt, alloc, &receiver)?;
    check_lines(&rt, alloc, &waiter)
}

/// A program that passes a token round a ring of nodes.
#[test]
fn ring(rt: HostRuntime) -> Result<(), Fail> {
    let rows = [
        ("loop: li a7, 7", 0x0070_0893),
        ("ecall", 0x0000_0073),
        ("mv s0, a0", 0x0005_0413),
        ("li a7, 10", 0x00A0_0893),
        ("ecall", 0x0000_0073),
        ("mv s1, a0", 0x0005_0493),
        ("lw t0, 0(s0)", 0x0004_2283),
        ("addi t1, s1, 1", 0x0014_8313),
        ("add t0, t0, t1", 0x0062_82B3),
        ("sw t0, 0(s0)", 0x0054_2023),
        ("lw t0, 4(s0)", 0x0044_2283),
        ("addi t0, t0, -1", 0xFFF2_8293),
        ("sw t0, 4(s0)", 0x0054_2223),
        ("beq t0, zero, done", 0x0002_8E63),
        ("li a7, 12", 0x00C0_0893),
        ("ecall", 0x0000_0073),
        ("addi t1, a0, -1", 0xFFF5_0313),
        ("addi a1, s1, 1", 0x0014_8593),
        ("and a1, a1, t1", 0x0065_F5B3),
        ("j pass", 0x0080_006F),
        ("done: li a1, -1", 0xFFF0_0593),
        ("pass: li a2, 0", 0x0000_0613),
        ("mv a0, s0", 0x0004_0513),
        ("li a7, 4", 0x0040_0893),
        ("ecall", 0x0000_0073),
        ("j loop", 0xF9DF_F06F),
    ];
    check_lines(&rt, rt.alloc(), &rows)
}

/// The example of docs/ASSEMBLY.md.
#[test]
fn example(rt: HostRuntime) -> Result<(), Fail> {
    let text =
        "# Counts down from 5, and leaves with the word at `answer`.\n        .equ count, 5\nstart:  li   t0, count\n\
        again:  addi t0, t0, -1\n        bne  t0, zero, again\n        la   t1, answer\n        lw   a0, 0(t1)\n\
        li   a7, 13\n        ecall\nanswer: .word 42, answer, -1\n";
    let words = [
        0x0050_0293,
        0xFFF2_8293,
        0xFE02_9EE3,
        0x0001_0337,
        0x0203_0313,
        0x0003_2503,
        0x00D0_0893,
        0x0000_0073,
        42,
        0x0001_0020,
        0xFFFF_FFFF,
    ];
    check_words(&rt, rt.alloc(), text, &words)
}

/// Each kind, with a fault of a later kind on its line that does not win.
#[test]
fn faults_in_order(rt: HostRuntime) -> Result<(), Fail> {
    let rows = [
        // One fault alone.
        ("addi a0, a0, 2048", 1, AsmKind::BadNumber),
        ("j nowhere", 1, AsmKind::UnknownName),
        ("li a0", 1, AsmKind::Operands),
        (".byte 1\nnop", 2, AsmKind::Unaligned),
        ("", 0, AsmKind::Entry),
        ("x: nop\nx: nop", 2, AsmKind::NameTaken),
        // One of each kind before the next.
        ("x: nop\nx: \x01", 2, AsmKind::BadByte),
        ("x: nop\nx: what", 2, AsmKind::NameTaken),
        ("a: addi q: a0", 1, AsmKind::UnknownWord),
        ("what q", 1, AsmKind::UnknownWord),
        ("addi q, a0", 1, AsmKind::Operands),
        ("addi q, a0, 99999", 1, AsmKind::BadRegister),
        (".byte nowhere, 256", 1, AsmKind::BadNumber),
        (".byte 1\naddi a0, a0, nowhere", 2, AsmKind::UnknownName),
        (".zero 122879\nnop\nnop", 2, AsmKind::Unaligned),
        (".zero 122880\nj nowhere", 2, AsmKind::TooLarge),
        ("beq a0, a0, nowhere", 1, AsmKind::UnknownName),
        ("beq a0, a0, x\n.zero 4092\nx: nop", 1, AsmKind::TooFar),
        ("j x\n.byte 1\nx: .byte 1", 1, AsmKind::TooFar),
        ("beq a0, a0, start\n.zero 4096\nstart:", 1, AsmKind::TooFar),
        (
            "beq a0, a0, x\nj nowhere\n.zero 4092\nx: nop",
            1,
            AsmKind::TooFar,
        ),
        ("j x\n.byte 1\nx: .word 1", 3, AsmKind::Unaligned),
        (".byte 1\nstart: .byte 1, 2, 3", 0, AsmKind::Entry),
        ("nop\nstart:", 0, AsmKind::Entry),
        ("j nowhere\nwhat", 2, AsmKind::UnknownWord),
    ];
    check_refusals(&rt, rt.alloc(), &rows)
}

/// The choices of the language on words and operands, each with a text that is refused.
#[test]
fn refused_operands(rt: HostRuntime) -> Result<(), Fail> {
    let rows = [
        // A statement's word ends at a blank.
        ("nop,", 1, AsmKind::UnknownWord),
        ("li,a0,5", 1, AsmKind::UnknownWord),
        ("nop ,", 1, AsmKind::Operands),
        // An operand is one token where one belongs.
        ("mv a0, a0 a1", 1, AsmKind::Operands),
        ("addi a0, a0, 4(sp)", 1, AsmKind::Operands),
        ("li a0, - 5", 1, AsmKind::Operands),
        ("mv a0,", 1, AsmKind::Operands),
        ("lw a0, (sp)", 1, AsmKind::Operands),
        ("lw a0, 4(sp) 5", 1, AsmKind::Operands),
        (".word", 1, AsmKind::Operands),
        (".byte", 1, AsmKind::Operands),
        // A number out of range that `.equ` gave comes before an unknown name.
        (".equ big, 256\n.byte nowhere, big", 2, AsmKind::BadNumber),
    ];
    check_refusals(&rt, rt.alloc(), &rows)
}

/// The choices of the language on labels and names, each with a text that is refused.
#[test]
fn refused_names(rt: HostRuntime) -> Result<(), Fail> {
    let rows = [
        // One colon, behind a name.
        ("a: b: nop", 1, AsmKind::UnknownWord),
        ("a: nop\na: b: nop", 2, AsmKind::NameTaken),
        ("a: nop\n1a: .equ a, 5", 2, AsmKind::UnknownWord),
        (": nop", 1, AsmKind::UnknownWord),
        // Labels and names of `.equ` are one name space.
        ("x: .equ x, 1", 1, AsmKind::NameTaken),
        (".equ x, 1\nx: nop", 2, AsmKind::NameTaken),
        ("x: nop\n.equ x", 2, AsmKind::NameTaken),
        // A second colon comes before the name of `.equ`, as without a label in front.
        ("x: nop\ny: .equ x, a:b", 2, AsmKind::UnknownWord),
        ("x: nop\n.equ x, a:b", 2, AsmKind::UnknownWord),
        (".equ start, 0x10004\n.byte 1, 2, 3", 0, AsmKind::Entry),
        // A label is no number, and a number no label.
        (".equ x, 1\nnop\nj x", 3, AsmKind::UnknownName),
        (".word x\n.equ x, 1", 1, AsmKind::UnknownName),
        (".equ x, x", 1, AsmKind::UnknownName),
        ("x: addi a0, a0, x", 1, AsmKind::UnknownName),
        // A name of 33 characters is none.
        (
            "aaaaaaaaaaaaaaaaaaaaaaaaaaaaaaaaa: nop",
            1,
            AsmKind::UnknownWord,
        ),
        ("j aaaaaaaaaaaaaaaaaaaaaaaaaaaaaaaaa", 1, AsmKind::Operands),
        (
            "li a0, aaaaaaaaaaaaaaaaaaaaaaaaaaaaaaaaa",
            1,
            AsmKind::BadNumber,
        ),
    ];
    check_refusals(&rt, rt.alloc(), &rows)
}

/// The choices of the language on numbers, each with a text that is refused.
#[test]
fn refused_numbers(rt: HostRuntime) -> Result<(), Fail> {
    let rows = [
        ("li a0, -0x1", 1, AsmKind::BadNumber),
        ("li a0, +1", 1, AsmKind::BadNumber),
        ("li a0, 0X1", 1, AsmKind::BadNumber),
        ("li a0, 0x", 1, AsmKind::BadNumber),
        ("li a0, -", 1, AsmKind::BadNumber),
        ("li a0, 4294967296", 1, AsmKind::BadNumber),
        ("li a0, -2147483649", 1, AsmKind::BadNumber),
        (".word 1x", 1, AsmKind::BadNumber),
    ];
    check_refusals(&rt, rt.alloc(), &rows)
}

/// The choices of the language on operands and names, each with a text that is accepted.
#[test]
fn accepted_operands_and_names(rt: HostRuntime) -> Result<(), Fail> {
    let alloc = rt.alloc();
    // Blanks may stand round brackets and before commas.
    check_words(&rt, alloc, "lw a0 , 4 ( sp )", &[0x0041_2503])?;
    // Names of instructions and registers may be labels.
    check_words(
        &rt,
        alloc,
        "nop: j nop\na0: j a0",
        &[0x0000_006F, 0x0000_006F],
    )?;
    // Leading zeros, as many as one likes.
    check_words(&rt, alloc, "li a0, 00000000000000000000001", &[0x0010_0513])?;
    check_words(
        &rt,
        alloc,
        "li a0, 0x00000000000000000000001\nli a0, -0",
        &[0x0010_0513, 0x0000_0513],
    )?;
    // A name of 32 characters is one.
    check_words(
        &rt,
        alloc,
        "aaaaaaaaaaaaaaaaaaaaaaaaaaaaaaaa: j aaaaaaaaaaaaaaaaaaaaaaaaaaaaaaaa",
        &[0x0000_006F],
    )?;
    Ok(())
}

/// A label may lie at a half word, and the label `start` is the entry.
#[test]
fn accepted_labels(rt: HostRuntime) -> Result<(), Fail> {
    let alloc = rt.alloc();
    check_bytes(
        &rt,
        alloc,
        "j x\n.byte 1, 2\nx: .byte 3, 4",
        &[0x6F, 0, 0x60, 0, 1, 2, 3, 4],
    )?;
    check_bytes(
        &rt,
        alloc,
        "beq a0, a1, x\n.byte 1, 2\nx: .byte 3, 4",
        &[0x63, 0x03, 0xB5, 0x00, 1, 2, 3, 4],
    )?;
    // The entry is the label `start`, and no number of that name.
    let labelled = assemble(alloc, b"nop\nstart: nop")?;
    assert_eq!(rt; labelled.entry(), 0x1_0004);
    let numbered = assemble(alloc, b".equ start, 0x10004\nnop\nnop")?;
    assert_eq!(rt; numbered.entry(), 0x1_0000);
    assert_eq!(rt; numbered.zero(), 0);
    Ok(())
}

/// How a kind is written in a message.
#[test]
fn texts_of_kinds(rt: HostRuntime) -> Result<(), Fail> {
    let alloc = rt.alloc();
    let rows = [
        (AsmKind::BadByte, "bad byte"),
        (AsmKind::NameTaken, "name taken"),
        (AsmKind::UnknownWord, "unknown word"),
        (AsmKind::Operands, "operands"),
        (AsmKind::BadRegister, "bad register"),
        (AsmKind::BadNumber, "bad number"),
        (AsmKind::UnknownName, "unknown name"),
        (AsmKind::Unaligned, "unaligned"),
        (AsmKind::TooLarge, "too large"),
        (AsmKind::TooFar, "too far"),
        (AsmKind::Entry, "entry"),
    ];
    for (kind, text) in rows {
        let written = format!(in alloc; "{kind}")?;
        assert_eq!(rt; written.as_str(), text);
    }
    Ok(())
}

/// A text of 1,048,576 bytes: 30,720 jumps, each with a label and to the label of another, and
/// 69,632 labels more.
fn long_text(alloc: Global) -> Result<String, Fail> {
    let mut text = String::new(alloc);
    for i in 0..30_720_u32 {
        let other = 30_719 - i;
        write!(&mut text, "l{i:05}:j l{other:05}\n")?;
    }
    for i in 0..69_632_u32 {
        write!(&mut text, "m{i:05}:\n")?;
    }
    Ok(text)
}

#[test]
fn long_text_of_short_lines(rt: HostRuntime) -> Result<(), Fail> {
    let alloc = rt.alloc();
    let text = long_text(alloc)?;
    assert_eq!(rt; text.len(), 1_048_576);
    let bytes = bytes_of(alloc, text.as_bytes())?;
    assert_eq!(rt; bytes.len(), 122_880);
    // The first jump goes to the last word.
    assert_eq!(rt; &bytes[..4], [0x6F, 0xD0, 0xD1, 0x7F].as_slice());
    Ok(())
}
