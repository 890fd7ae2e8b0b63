use super::*;
use rv_model::PRIVATE_START;
use std::alloc::{AllocError, Global};
use std::test::Fail;

/// `li a0, 42`; `li a7, 14`; `ecall`; `li a7, 13`; `ecall`.
const WORDS: [u32; 5] = [
    0x02A0_0513,
    0x00E0_0893,
    0x0000_0073,
    0x00D0_0893,
    0x0000_0073,
];

/// The image of these words in RKI1, entered at its first word.
const RKI1: [u8; 36] = [
    0x52, 0x4B, 0x49, 0x31, 0x00, 0x00, 0x01, 0x00, 0x14, 0x00, 0x00, 0x00, 0x00, 0x00, 0x00, 0x00,
    0x13, 0x05, 0xA0, 0x02, 0x93, 0x08, 0xE0, 0x00, 0x73, 0x00, 0x00, 0x00, 0x93, 0x08, 0xD0, 0x00,
    0x73, 0x00, 0x00, 0x00,
];

fn loaded_words(alloc: Global) -> Result<Vec<u8>, AllocError> {
    let mut loaded = Vec::new(alloc);
    for word in WORDS {
        loaded.extend_from_slice(&word.to_le_bytes())?;
    }
    Ok(loaded)
}

/// Bytes with this header, and five words behind it.
fn with_header(
    alloc: Global,
    magic: &[u8; 4],
    entry: u32,
    loaded_len: u32,
    zero: u32,
) -> Result<Vec<u8>, AllocError> {
    let mut bytes = Vec::from_slice(alloc, magic)?;
    for number in [entry, loaded_len, zero] {
        bytes.extend_from_slice(&number.to_le_bytes())?;
    }
    bytes.extend_from_slice(&loaded_words(alloc)?)?;
    Ok(bytes)
}

#[test]
fn image(rt: HostRuntime) -> Result<(), Fail> {
    let first = Image::of_parts(PRIVATE_START, loaded_words(rt.alloc())?, 0)?;
    assert_eq!(rt; write(rt.alloc(), &first)?.as_slice(), RKI1.as_slice());
    let second = first.copy(rt.alloc())?;
    let again = written_and_read(rt.alloc(), &first)?;
    for image in [read(rt.alloc(), &RKI1)?, second, again] {
        assert_eq!(rt; image.entry(), PRIVATE_START);
        assert_eq!(rt; image.loaded(), &RKI1[16..]);
        assert_eq!(rt; image.zero(), 0);
    }
    Ok(())
}

#[test]
fn zero_bytes(rt: HostRuntime) -> Result<(), Fail> {
    let first = Image::of_parts(PRIVATE_START + 16, loaded_words(rt.alloc())?, 122_860)?;
    let bytes = with_header(rt.alloc(), b"RKI1", PRIVATE_START + 16, 20, 122_860)?;
    assert_eq!(rt; write(rt.alloc(), &first)?.as_slice(), bytes.as_slice());
    let image = read(rt.alloc(), &bytes)?;
    assert_eq!(rt; (image.entry(), image.zero()), (0x0001_0010, 122_860));
    Ok(())
}

#[test]
fn faults_of_lengths(rt: HostRuntime) -> Result<(), Fail> {
    for (bytes, fault) in [
        (&RKI1[..35], ImageFault::Length),
        (&RKI1[..3], ImageFault::Short),
        // Short before Magic
        (b"RKI2 is no magic".split_at(15).0, ImageFault::Short),
    ] {
        assert_eq!(rt; read(rt.alloc(), bytes).err(), Some(fault));
    }
    Ok(())
}

#[test]
fn faults_of_headers(rt: HostRuntime) -> Result<(), Fail> {
    for (magic, entry, loaded_len, zero, fault) in [
        // before TooLarge
        (b"RKI0", 0, 122_881, 0, ImageFault::Magic),
        (b"rKI1", 0, 122_881, 0, ImageFault::Magic),
        // before Length
        (b"RKI1", 0, 122_881, 0, ImageFault::TooLarge),
        (b"RKI1", 0, u32::MAX, u32::MAX, ImageFault::TooLarge),
        // before Entry
        (b"RKI1", 0, 20, 122_861, ImageFault::TooLarge),
        (b"RKI1", 0, 19, 0, ImageFault::Length),
        (b"RKI1", 0, 21, 0, ImageFault::Length),
        // alone
        (b"RKI1", PRIVATE_START - 4, 20, 0, ImageFault::Entry),
        (b"RKI1", PRIVATE_START + 2, 20, 0, ImageFault::Entry),
        (b"RKI1", PRIVATE_START + 20, 20, 4, ImageFault::Entry),
        (b"RKI1", u32::MAX - 3, 20, 0, ImageFault::Entry),
    ] {
        let bytes = with_header(rt.alloc(), magic, entry, loaded_len, zero)?;
        assert_eq!(rt;
            read(rt.alloc(), &bytes).err(),
            Some(fault),
            "{entry} {loaded_len} {zero}"
        );
    }
    Ok(())
}

#[test]
fn faults_of_parts(rt: HostRuntime) -> Result<(), Fail> {
    for (entry, zero, fault) in [
        // before Entry
        (0, 122_861, ImageFault::TooLarge),
        (PRIVATE_START + 20, 0, ImageFault::Entry),
    ] {
        let image = Image::of_parts(entry, loaded_words(rt.alloc())?, zero);
        assert_eq!(rt; image.err(), Some(fault));
    }
    Ok(())
}
