//! Why parts or bytes are no image.

ghost use Rattle.std.specs.Prelude.{◌≡◌};
ghost use Rattle.rv_image.specs.declared.fault.ImageFault.TheVariants.{Memory};

use rv_model::NoMemory;
use std::alloc::AllocError;
use thiserror::Error;

/// Why parts or bytes are no image, in the order in which the causes are judged: where several
/// hold, the first is answered.
#[derive(Clone, Copy, Debug, PartialEq, Eq, Error)]
pub enum ImageFault {
    /// There are fewer bytes than the header has.
    #[error("fewer bytes than the header has")]
    Short,
    /// The bytes do not begin with `RKI1`.
    #[error("not RKI1")]
    Magic,
    /// Loaded and zero bytes together are more than `IMAGE_ROOM`.
    #[error("more bytes than an image has room for")]
    TooLarge,
    /// There are more or fewer loaded bytes than the header says.
    #[error("not as many bytes as the header says")]
    Length,
    /// The entry is not a multiple of 4, or no whole word of the loaded bytes begins there.
    #[error("no instruction at the entry")]
    Entry,
    /// Memory ran out, for parts or bytes that are an image.
    #[error("{0}")]
    Memory(NoMemory),
}

impl From<NoMemory> for ImageFault {
    ghost from_gives = { λ cause fault. fault ≡ Memory cause };

    fn from(cause: NoMemory) -> ImageFault {
        ImageFault::Memory(cause)
    }
}

impl From<AllocError> for ImageFault {
    ghost from_gives = { λ _ fault. fault ≡ Memory (record {}) };

    fn from(_: AllocError) -> ImageFault {
        ImageFault::Memory(NoMemory)
    }
}
