//! The image that a text describes.

ghost use Rattle.std.specs.Prelude.{◌≡◌, ◌<◌, length};
ghost use Rattle.ce_text.specs.declared.limits.TheConstants.{TEXT_LIMIT};
ghost use Rattle.ce_text.specs.Names.{meanings_of};
ghost use Rattle.rv_asm.specs.Assembly.{entry_of, IsAssemblyOf};

use crate::fault::{AsmFault, AsmKind};
use crate::first_pass::first_pass;
use crate::second_pass::second_pass;
use crate::symbols::{Symbol, Symbols};
use rv_image::Image;
use rv_model::PRIVATE_START;
use std::alloc::Global;

/// The label `start`, and the start of the image where no line has it.
fn entry_of(symbols: &Symbols) -> u32
    ensures { result ≡ entry_of (meanings_of symbols.now) }
{
    match symbols.meaning(b"start") {
        Some(Symbol::Label(address)) => address,
        Some(Symbol::Number(_)) | None => PRIVATE_START,
    }
}

/// The image that an assembly text describes (docs/ASSEMBLY.md), whose bytes are all loaded, or the
/// first fault of the text. The first pass judges the lines in order, each for the kinds from
/// `BadByte` to `TooLarge`; only where it finds no fault, the second judges them for `UnknownName`
/// of a label and `TooFar`; `Entry` comes last. `Memory` may come at any point.
pub fn assemble(alloc: Global, text: &[u8]) -> Result<Image, AsmFault>
    requires { length text.now < TEXT_LIMIT }
    ensures { IsAssemblyOf text.now result }
{
    let layout = first_pass(alloc, text)?;
    let bytes = second_pass(alloc, &layout)?;
    match Image::of_parts(entry_of(&layout.symbols), bytes, 0) {
        Ok(image) => Ok(image),
        Err(_) => Err(AsmFault {
            line: 0,
            kind: AsmKind::Entry,
        }),
    }
}
