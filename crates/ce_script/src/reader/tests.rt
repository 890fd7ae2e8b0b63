use super::*;
use crate::script::ScriptKind;
use rv_asm::AsmKind;
use std::alloc::{AllocError, Global};
use std::process::Abort;
use std::test::Fail;

/// The bytes of one image in all three forms, with comments in each.
const THREE_FORMS: &[u8] = b"machine 0 # the least\n
image one hex # words
00000073# the first
end # of one
image two asm
 ecall # the first
end
image three rki
524B4931 # the magic
00000100 04000000 00000000# the header
# \xC8
73000000
end
";

#[test]
fn hello(rt: HostRuntime) -> Result<(), Fail> {
    let text =
        b"machine 0\nimage hello hex\n02A00513 00E00893 00000073 00D00893 00000073\nend\nuser alice\ngetcube 0\nspawn hello 0 0\nrun 10\n";
    let script = read_script(rt.alloc(), text)?.script;
    assert_eq!(rt; script.dim, Some(0));
    assert_eq!(rt; script.images.len(), 1);
    assert_eq!(rt; script.users.len(), 1);
    assert_eq!(rt; script.commands.len(), 3);
    Ok(())
}

#[test]
fn bodies_in_each_form(rt: HostRuntime) -> Result<(), Fail> {
    let script = read_script(rt.alloc(), THREE_FORMS)?.script;
    assert_eq!(rt; script.images.len(), 3);
    for named in script.images.as_slice() {
        assert_eq!(rt; named.image.loaded(), [0x73, 0, 0, 0].as_slice());
    }
    Ok(())
}

#[test]
fn names_and_numbers(rt: HostRuntime) -> Result<(), Fail> {
    let text =
        b"machine 0000000000\nimage end hex\n00000073\nend\nuser end\nuser host\nuser end\ngetcube 6\nspawn end 4294967295 0\n";
    let script = read_script(rt.alloc(), text)?.script;
    assert_eq!(rt; script.dim, Some(0));
    assert_eq!(rt; script.images.len(), 1);
    assert_eq!(rt; script.users.len(), 2);
    assert_eq!(rt; script.commands.len(), 2);
    Ok(())
}

/// Each text has this first fault.
fn have_faults(rt: &impl Abort, alloc: Global, rows: &[(&[u8], u32, ScriptKind)]) {
    for (text, line, kind) in rows {
        let (line, kind) = (*line, *kind);
        assert!(rt; text.len() < 1_000);
        assert_eq!(rt;
            read_script(alloc, text).err(),
            Some(ScriptFault { line, kind }),
            "{text:?}"
        );
    }
}

/// Each kind up to the verb's place, with a later one on the same line or behind it.
#[test]
fn kinds_of_faults_up_to_the_place(rt: HostRuntime) {
    have_faults(
        &rt,
        rt.alloc(),
        &[
            (b"fly \xC8\n", 1, ScriptKind::BadByte),
            (b"fly 1 2 3\n", 1, ScriptKind::UnknownWord),
            (b"user\n", 1, ScriptKind::WordCount),
            (b"run x\n", 1, ScriptKind::NoMachine),
            (b"machine 0\nmachine x\n", 2, ScriptKind::SecondMachine),
            (b"machine 0\nrun x\n", 2, ScriptKind::NoUser),
        ],
    );
}

/// Each kind behind those, with a later one on the same line or behind it.
#[test]
fn kinds_of_faults_behind_the_place(rt: HostRuntime) {
    have_faults(
        &rt,
        rt.alloc(),
        &[
            (
                b"machine 0\nuser a\nsend x 0 abc\n",
                3,
                ScriptKind::BadNumber,
            ),
            (b"machine 0\nuser a\nspawn 1x x 0\n", 3, ScriptKind::BadName),
            (
                b"machine 0\nuser a\nsend 0 0 abc\nfly\n",
                3,
                ScriptKind::BadHex,
            ),
            (
                b"machine 0\nimage x hex\n00000073\nend\nimage x hex\n",
                5,
                ScriptKind::NameTaken,
            ),
            (
                b"machine 0\nuser a\nspawn nobody x 0\n",
                3,
                ScriptKind::UnknownImage,
            ),
            (b"machine 0\nimage x hex\n\xC8\n", 2, ScriptKind::NoEnd),
            (
                b"machine 0\nimage x asm\necall\naddi q, a0, 99999\nend\n",
                4,
                ScriptKind::Assembly(AsmKind::BadRegister),
            ),
            (
                b"machine 0\nimage x hex\n00000073 zz\nz\nend\n",
                3,
                ScriptKind::BadImage,
            ),
        ],
    );
}

/// Lines outside of bodies.
#[test]
fn faults_of_lines(rt: HostRuntime) {
    have_faults(
        &rt,
        rt.alloc(),
        &[
            // A ninth user, and a word that begins nothing.
            (
                b"machine 0\nuser u0\nuser u1\nuser u2\nuser u3\nuser u4\nuser u5\nuser u6\nuser u7\nuser u8\n",
                10,
                ScriptKind::TooMany,
            ),
            (b"machine 0\nuser a\nfly\n", 3, ScriptKind::UnknownWord),
            // A third word that is no form, and a line without one.
            (b"image 1x foo bar\n", 1, ScriptKind::UnknownWord),
            (b"image x\n", 1, ScriptKind::WordCount),
            // Operands are judged from left to right.
            (
                b"machine 0\nuser a\nsend 0 x zz\n",
                3,
                ScriptKind::BadNumber,
            ),
            // Numbers that are too large or too long.
            (b"machine 7\n", 1, ScriptKind::BadNumber),
            (b"machine 00000000000\n", 1, ScriptKind::BadNumber),
            (
                b"machine 0\nuser a\ndump 4294967296 0\n",
                3,
                ScriptKind::BadNumber,
            ),
            (
                b"machine 0\nuser a\nrun 1000001\n",
                3,
                ScriptKind::BadNumber,
            ),
        ],
    );
}

/// A bad byte of a body comes before all else of the body, and behind what is wrong with the image's
/// line.
#[test]
fn bad_bytes_of_bodies(rt: HostRuntime) {
    have_faults(
        &rt,
        rt.alloc(),
        &[
            (
                b"machine 0\nimage x hex\nzz\n\xC8\nend\n",
                4,
                ScriptKind::BadByte,
            ),
            (
                b"machine 0\nimage x rki\n00\n\xC8\nend\n",
                4,
                ScriptKind::BadByte,
            ),
            (
                b"machine 0\nimage x asm\n.\xC8\nend\n",
                3,
                ScriptKind::BadByte,
            ),
            (
                b"machine 0\nimage 1x hex\n\xC8\nend\n",
                2,
                ScriptKind::BadName,
            ),
        ],
    );
}

/// What ends a body, and what doesn't.
#[test]
fn ends_of_bodies(rt: HostRuntime) {
    have_faults(
        &rt,
        rt.alloc(),
        &[
            (b"machine 0\nend\n", 2, ScriptKind::UnknownWord),
            (
                b"machine 0\nimage x hex\nend end\nend:\nend\n",
                3,
                ScriptKind::BadImage,
            ),
            (
                b"machine 0\nimage x asm\nend # text\n",
                2,
                ScriptKind::Assembly(AsmKind::Entry),
            ),
            (
                b"machine 0\nimage x rki\n00\nend\n",
                2,
                ScriptKind::BadImage,
            ),
        ],
    );
}

/// Adds eight images, of which the names begin with this letter.
fn push_images(text: &mut Vec<u8>, letter: u8) -> Result<(), AllocError> {
    for further_letter in b'a'..b'i' {
        text.extend_from_slice(b"image ")?;
        text.extend_from_slice(&[letter, further_letter])?;
        text.extend_from_slice(b" hex\n00000073\nend\n")?;
    }
    Ok(())
}

/// A script of 64 images, and the line of one more, which lacks its end.
fn too_many_images(alloc: Global) -> Result<Vec<u8>, AllocError> {
    let mut text = Vec::from_slice(alloc, b"machine 0\n")?;
    for letter in b'a'..b'i' {
        push_images(&mut text, letter)?;
    }
    text.extend_from_slice(b"image x hex\n")?;
    Ok(text)
}

#[test]
fn a_65th_image(rt: HostRuntime) -> Result<(), Fail> {
    let text = too_many_images(rt.alloc())?;
    let kind = ScriptKind::TooMany;
    assert!(rt; text.len() < 2_000);
    assert_eq!(rt;
        read_script(rt.alloc(), text.as_slice()).err(),
        Some(ScriptFault { line: 194, kind })
    );
    Ok(())
}
