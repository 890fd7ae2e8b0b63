//! Places, blocks and subcubes.
ghost use Rattle.std.specs.Prelude.{◌≡◌, ◌++◌, OnOk, codes, decimal, ◌==◌, if◌then◌else◌};
ghost use Rattle.ce_model.specs.Limits.{host_home};
ghost use Rattle.ce_script.specs.TextParts.{block_text, place_text, subcube_words};
ghost use Rattle.ce_script.specs.CommandText.{place_words};
ghost use Rattle.ce_trace.specs.Spaced.{spaced_words};

use crate::digits::{push_decimal, push_number};
use crate::words::push;
use ce_model::{BlockId, HOST, HOST_HOME, Place, Subcube};
use std::alloc::AllocError;

/// A place of a cube.
pub(crate) fn push_place(text: &mut Vec<u8>, place: Place) -> Result<(), AllocError>
    ensures { OnOk result (text.new.items ≡ text.old.items ++ place_text place) }
{
    if place.node == HOST {
        return push(text, b"host.0");
    }
    push_decimal(text, u64::from(place.node))?;
    push(text, b".")?;
    push_decimal(text, u64::from(place.pid))
}

/// A block of a cube.
pub(crate) fn push_block(text: &mut Vec<u8>, id: BlockId) -> Result<(), AllocError>
    ensures { OnOk result (text.new.items ≡ text.old.items ++ block_text id) }
{
    push_home(text, id.home)?;
    push(text, b".")?;
    push_decimal(text, u64::from(id.index))
}

/// Where a block lies when nobody uses it.
#[tactic(auto, unfolding(ce_model::specs::Limits::host_home))]
fn push_home(text: &mut Vec<u8>, home: u32) -> Result<(), AllocError>
    ensures { OnOk result (text.new.items
        ≡ text.old.items ++ (if home == host_home then codes "host" else decimal home)) }
{
    if home == HOST_HOME {
        return push(text, b"host");
    }
    push_decimal(text, u64::from(home))
}

/// A node and a process id, as a user writes them, with a space before each.
pub(crate) fn push_place_words(text: &mut Vec<u8>, place: Place) -> Result<(), AllocError>
    ensures { OnOk result (text.new.items ≡ text.old.items ++ spaced_words (place_words place)) }
{
    push_number(text, u64::from(place.node))?;
    push_number(text, u64::from(place.pid))
}

/// A subcube, with a space before each word.
pub(crate) fn push_subcube(text: &mut Vec<u8>, sub: Subcube) -> Result<(), AllocError>
    ensures { OnOk result (text.new.items ≡ text.old.items ++ spaced_words (subcube_words sub)) }
{
    push(text, b" mask")?;
    push_number(text, u64::from(sub.mask))?;
    push(text, b" base")?;
    push_number(text, u64::from(sub.base))
}
