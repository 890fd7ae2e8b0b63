//! Laws of RKI1, each the contract of a function.
ghost use Rattle.std.specs.Prelude.{◌≡◌, ℕ, List};
ghost use Rattle.rv_model.specs.Image.{ImageParts};
ghost use Rattle.rv_image.specs.Fault.{IsValueOf};
ghost use Rattle.rv_image.specs.Rki1.{IsRki1};

use crate::{Image, ImageFault, read, write};
use std::alloc::Global;

/// RKI1 is unambiguous: bytes spell one image at most, and an image has one spelling.
#[tactic(auto, using(crate::proofs::Spelled::one_image, crate::proofs::Spelled::one_spelling))]
pub fn rki1_is_unambiguous()
    ensures one_image { (bytes : List ℕ) (image other : ImageParts)
        → IsRki1 bytes image → IsRki1 bytes other → image ≡ other }
    ensures one_spelling { (bytes other : List ℕ) (image : ImageParts)
        → IsRki1 bytes image → IsRki1 other image → bytes ≡ other }
{}

/// What `read` gives of what `write` gives: the image itself. Only where memory runs out there is
/// none.
pub fn written_and_read(alloc: Global, image: &Image) -> Result<Image, ImageFault>
    ensures { IsValueOf result image.now }
{
    let bytes = write(alloc, image)?;
    read(alloc, &bytes)
}
