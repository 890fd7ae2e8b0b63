ghost use Rattle.std.specs.Prelude.{◌≡◌, length, ◌≤◌};
ghost use Rattle.ce_model.specs.Limits.{block_room};

use crate::{BlockId, Place};
use std::marker::Model;

/// The bytes of a message, `BLOCK_ROOM` at most. Contracts see it as their list.
#[derive(Debug, Drop)]
pub struct Bytes {
    items: Vec<u8>,
}

impl Model for Bytes {
    ghost use Rattle.std.specs.Prelude.{List, ℕ, length, ◌≤◌};
    ghost use Rattle.ce_model.specs.Limits.{block_room};

    ghost Value = { List ℕ };

    ghost view = { λ bytes. bytes.items.items };

    ghost invariant = { λ bytes. length bytes.items.items ≤ block_room };
}

impl Bytes {
    /// The bytes of this `Vec`, which must be those of a message.
    pub fn from_vec(items: Vec<u8>) -> Bytes
        requires { length items.items ≤ block_room }
        ensures { result ≡ items.items }
    {
        Bytes { items }
    }

    /// The `Vec` with these bytes.
    pub fn into_vec(self) -> Vec<u8>
        ensures bytes { result.items ≡ self }
        ensures bound { length result.items ≤ block_room }
    {
        self.items
    }

    /// The bytes.
    pub fn as_slice(&self) -> &[u8]
        ensures bytes { result.now ≡ self.now }
        ensures bound { length self.now ≤ block_room }
    {
        self.items.as_slice()
    }
}

/// The places that a message was sent to, each with the block that carries it there. Contracts see
/// it as the list of these pairs.
#[derive(Debug, Drop)]
pub struct Targets {
    items: Vec<(Place, BlockId)>,
}

impl Model for Targets {
    ghost use Rattle.std.specs.Prelude.{List};
    ghost use Rattle.ce_model.specs.declared.topology.Place.{Place};
    ghost use Rattle.ce_model.specs.declared.topology.BlockId.{BlockId};

    ghost Value = { List (Place × BlockId) };

    ghost view = { λ targets. targets.items.items };
}

impl Targets {
    /// The targets of this `Vec`.
    pub fn from_vec(items: Vec<(Place, BlockId)>) -> Targets
        ensures { result ≡ items.items }
    {
        Targets { items }
    }

    /// The `Vec` with these targets.
    pub fn into_vec(self) -> Vec<(Place, BlockId)>
        ensures { result.items ≡ self }
    {
        self.items
    }

    /// The targets.
    pub fn as_slice(&self) -> &[(Place, BlockId)]
        ensures { result.now ≡ self.now }
    {
        self.items.as_slice()
    }
}
