//! The places of names among names.
ghost use Rattle.std.specs.Prelude.{[]};
ghost use Rattle.ce_script.specs.Places.{IsIndexOf};

use ce_text::NameTable;
use std::alloc::Global;

/// The place of each name among some names.
pub type NameIndex = NameTable<u32>;

/// The places of the names that a reader knows.
#[derive(Drop)]
pub struct Indexes {
    /// Of the users.
    pub users: NameIndex,
    /// Of the images.
    pub images: NameIndex,
}

impl Indexes {
    /// No names.
    #[tactic(auto, using(crate::proofs::Indexing::no_index))]
    pub fn new(alloc: Global) -> Indexes
        ensures users { IsIndexOf result.users [] }
        ensures images { IsIndexOf result.images [] }
    {
        Indexes {
            users: NameIndex::new(alloc),
            images: NameIndex::new(alloc),
        }
    }
}
