use std::alloc::{AllocError, AllocFailed};
use std::error::Error;
use std::fmt;

/// Memory ran out. It is the one answer that every call which allocates may give at any time.
#[derive(Clone, Copy, Debug, PartialEq, Eq, PartialOrd, Ord)]
pub struct NoMemory;

impl NoMemory {
    ghost use Rattle.std.specs.Prelude.{◌≡◌};
    ghost use Rattle.rv_model.specs.NoMemoryText.{no_memory};

    /// Its text in messages.
    pub fn text(&self) -> &'static str
        ensures { result.now ≡ no_memory }
    {
        "no memory"
    }
}

impl fmt::Display for NoMemory {
    ghost use Rattle.std.specs.Prelude.{Some};
    ghost use Rattle.rv_model.specs.NoMemoryText.{no_memory};

    ghost output = { λ _. Some no_memory };

    fn fmt<W: fmt::Write>(&self, f: &mut fmt::Formatter<W>) -> fmt::Result {
        f.write_str(self.text())
    }
}

impl Error for NoMemory {}

impl From<AllocError> for NoMemory {
    fn from(_: AllocError) -> Self {
        NoMemory
    }
}

impl<T: Drop> From<AllocFailed<T>> for NoMemory {
    fn from(_: AllocFailed<T>) -> Self {
        NoMemory
    }
}
