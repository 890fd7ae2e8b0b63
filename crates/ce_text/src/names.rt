//! Tables from names to what they mean, to which names are added.

ghost use Rattle.std.specs.Prelude.{◌≡◌, None, Some, OnOk, bytes_eq};
ghost use Rattle.std.specs.Map.{update};
ghost use Rattle.ce_text.specs.Names.{meanings_of};

use std::alloc::{AllocError, Global};
use std::collections::BTreeMap;

/// What each name means.
#[derive(Drop)]
pub struct NameTable<T> {
    alloc: Global,
    meanings: BTreeMap<Vec<u8>, T>,
}

impl<T: Copy> NameTable<T> {
    /// No names.
    pub fn new(alloc: Global) -> NameTable<T>
        ensures { meanings_of result ≡ (λ name. None) }
    {
        NameTable {
            alloc,
            meanings: BTreeMap::new(alloc),
        }
    }

    /// What a name means.
    pub fn meaning(&self, name: &[u8]) -> Option<T>
        ensures { result ≡ meanings_of self.now name.now }
    {
        self.meanings.get(name).copied()
    }

    /// Gives a name a meaning, in place of any that it had. `AllocError` may come at
    /// any time.
    pub fn define(&mut self, name: &[u8], meaning: T) -> Result<(), AllocError>
        ensures { OnOk result (meanings_of self.new
            ≡ update bytes_eq (meanings_of self.old) name.now (Some meaning)) }
    {
        let name = Vec::from_slice(self.alloc, name)?;
        self.meanings.insert(name, meaning)?;
        Ok(())
    }
}
