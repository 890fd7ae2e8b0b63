//! Images: what a process is started from.

ghost use Rattle.std.specs.Prelude.{◌≡◌, ◌↔◌, IsOk, IfOk};
ghost use Rattle.std.specs.Result.{result_err};
ghost use Rattle.rv_model.specs.Image.{IsImage, image_parts};
ghost use Rattle.rv_image.specs.Fault.{is_too_large, is_entry, parts_fault};

mod rki1;

use crate::ImageFault;
pub use rki1::{read, write};
use rv_model::{IMAGE_ROOM, NoMemory, PRIVATE_START, WORD_SIZE};
use std::alloc::Global;
use std::marker::Model;

/// What a process is started from. Its loaded bytes stand from `PRIVATE_START` on, with bytes of
/// value 0 behind them; together they are `IMAGE_ROOM` bytes at most. The process begins at the
/// entry, a multiple of 4 at which a whole word of the loaded bytes lies (docs/IMAGE.md).
#[derive(Debug, Drop)]
pub struct Image {
    entry: u32,
    loaded: Vec<u8>,
    zero: u32,
}

impl Model for Image {
    ghost use Rattle.rv_model.specs.Image.{ImageParts, IsImage, image_parts};

    ghost Value = { ImageParts };

    ghost view = { λ image. image_parts image.entry image.loaded.items image.zero };

    ghost invariant = { λ image. IsImage (image_parts image.entry image.loaded.items image.zero) };
}

/// Whether so many loaded bytes and zero bytes together are more than an image may take up.
fn is_too_large(loaded_len: usize, zero_len: usize) -> bool
    ensures { result ≡ is_too_large loaded_len zero_len }
{
    loaded_len > IMAGE_ROOM as usize || zero_len > IMAGE_ROOM as usize - loaded_len
}

/// Whether at this address a whole word of so many loaded bytes begins.
fn is_entry(address: u32, loaded_len: usize) -> bool
    ensures { result ≡ is_entry address loaded_len }
{
    address.is_multiple_of(WORD_SIZE)
        && address >= PRIVATE_START
        && (address - PRIVATE_START) as usize + WORD_SIZE as usize <= loaded_len
}

impl Image {
    /// The image with this entry, these loaded bytes and so many zero bytes. `TooLarge` where
    /// loaded and zero bytes together are more than `IMAGE_ROOM`, and else `Entry` where the entry
    /// is not a multiple of 4, or no whole word of the loaded bytes lies there. No other error
    /// comes, and no memory is taken.
    pub fn of_parts(entry: u32, loaded: Vec<u8>, zero: u32) -> Result<Image, ImageFault>
        ensures same { IfOk result (λ image. image ≡ image_parts entry loaded.items zero) }
        ensures valid { IsOk result ↔ IsImage (image_parts entry loaded.items zero) }
        ensures fault { result_err result ≡ parts_fault (image_parts entry loaded.items zero) }
    {
        if is_too_large(loaded.len(), zero as usize) {
            return Err(ImageFault::TooLarge);
        }
        if !is_entry(entry, loaded.len()) {
            return Err(ImageFault::Entry);
        }
        Ok(Image {
            entry,
            loaded,
            zero,
        })
    }

    /// The address of the first instruction, a multiple of 4 from `PRIVATE_START` on.
    pub fn entry(&self) -> u32
        ensures value { result ≡ self.now.entry }
        ensures valid { IsImage self.now }
    {
        self.entry
    }

    /// The bytes that stand from `PRIVATE_START` on, `IMAGE_ROOM` at most.
    pub fn loaded(&self) -> &[u8]
        ensures value { result.now ≡ self.now.loaded }
        ensures valid { IsImage self.now }
    {
        self.loaded.as_slice()
    }

    /// How many bytes of value 0 stand behind the loaded ones, `IMAGE_ROOM` at most together with
    /// them.
    pub fn zero(&self) -> u32
        ensures value { result ≡ self.now.zero }
        ensures valid { IsImage self.now }
    {
        self.zero
    }

    /// The same image. The error comes where memory runs out.
    pub fn copy(&self, alloc: Global) -> Result<Image, NoMemory>
        ensures { IfOk result (λ image. image ≡ self.now) }
    {
        let loaded = Vec::from_slice(alloc, &self.loaded)?;
        Ok(Image {
            entry: self.entry,
            loaded,
            zero: self.zero,
        })
    }
}
