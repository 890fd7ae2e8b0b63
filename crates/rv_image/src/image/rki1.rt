//! RKI1, the format in which images are kept.

ghost use Rattle.std.specs.Prelude.{◌≡◌, ◌+◌, ◌≤◌, IfOk, length};
ghost use Rattle.std.specs.Result.{result_err};
ghost use Rattle.rv_model.specs.Image.{ImageParts, image_parts};
ghost use Rattle.rv_image.specs.Fault.{named_cause, IsValueOf};
ghost use Rattle.rv_image.specs.Rki1.{IsRki1, fields_of, fault_of};

use super::{Image, is_entry, is_too_large};
use crate::ImageFault;
use rv_model::{NoMemory, word_at};
use std::alloc::Global;

/// With these bytes RKI1 begins.
const MAGIC: [u8; 4] = *b"RKI1";

/// Where the entry stands.
const ENTRY_AT: usize = 4;

/// Where the number of loaded bytes stands.
const LOADED_LEN_AT: usize = 8;

/// Where the number of zero bytes stands.
const ZERO_LEN_AT: usize = 12;

/// How many bytes stand before the loaded ones.
const HEADER_LEN: usize = 16;

/// What bytes in RKI1 hold, with the loaded bytes where they lie.
#[derive(Clone, Copy)]
struct Fields<'a> {
    entry: u32,
    loaded: &'a [u8],
    zero: u32,
}

/// What the bytes hold, or why they are no RKI1.
fn fields_of(bytes: &[u8]) -> Result<Fields<'_>, ImageFault>
    ensures found { IfOk result
        (λ fields. image_parts fields.entry fields.loaded.now fields.zero ≡ fields_of bytes.now) }
    ensures fault { result_err result ≡ fault_of bytes.now }
{
    if bytes.len() < HEADER_LEN {
        return Err(ImageFault::Short);
    }
    if !bytes.starts_with(&MAGIC) {
        return Err(ImageFault::Magic);
    }
    let loaded_len = word_at(bytes, LOADED_LEN_AT) as usize;
    let zero = word_at(bytes, ZERO_LEN_AT);
    if is_too_large(loaded_len, zero as usize) {
        return Err(ImageFault::TooLarge);
    }
    if bytes.len() != HEADER_LEN + loaded_len {
        return Err(ImageFault::Length);
    }
    let entry = word_at(bytes, ENTRY_AT);
    if !is_entry(entry, loaded_len) {
        return Err(ImageFault::Entry);
    }
    Ok(Fields {
        entry,
        loaded: &bytes[HEADER_LEN..],
        zero,
    })
}

/// The image that the bytes spell in RKI1 (docs/IMAGE.md): the magic, the entry, the number of
/// loaded bytes and that of zero bytes, each as a little-endian u32, the loaded bytes, and the end.
/// Other bytes are refused with the first fault that holds, in the order of `ImageFault`'s
/// variants. `Memory` comes only where memory runs out and the bytes have no fault.
pub fn read(alloc: Global, bytes: &[u8]) -> Result<Image, ImageFault>
    // What is read is spelled so.
    ensures found { IfOk result (λ image. IsRki1 bytes.now image) }
    // What is spelled so is read, unless memory runs out.
    ensures only { (image : ImageParts) → IsRki1 bytes.now image → IsValueOf result image }
    // Which fault it is.
    ensures exact { named_cause result ≡ fault_of bytes.now }
{
    let fields = fields_of(bytes)?;
    let loaded = Vec::from_slice(alloc, fields.loaded)?;
    Ok(Image {
        entry: fields.entry,
        loaded,
        zero: fields.zero,
    })
}

/// The one spelling of an image in RKI1, which `read` gives back. The error comes where memory runs
/// out.
pub fn write(alloc: Global, image: &Image) -> Result<Vec<u8>, NoMemory>
    ensures { IfOk result (λ bytes. IsRki1 bytes.items image.now) }
{
    let mut bytes = Vec::with_capacity(alloc, HEADER_LEN + image.loaded.len())?;
    bytes.extend_from_slice(&MAGIC)?;
    bytes.extend_from_slice(&image.entry.to_le_bytes())?;
    bytes.extend_from_slice(&(image.loaded.len() as u32).to_le_bytes())?;
    bytes.extend_from_slice(&image.zero.to_le_bytes())?;
    bytes.extend_from_slice(&image.loaded)?;
    Ok(bytes)
}
