//! Labels that statements name.

ghost use Rattle.std.specs.Prelude.{◌≡◌};

use std::marker::Model;

/// The label that a statement names, as it stands in the text. Contracts see it as its bytes.
#[derive(Debug, Drop)]
pub struct Label<'a>(&'a [u8]);

impl<'a> Model for Label<'a> {
    ghost use Rattle.std.specs.Prelude.{List, ℕ};

    ghost Value = { List ℕ };

    ghost view = { λ label. label.0.now };
}

impl<'a> Label<'a> {
    /// The label with these bytes.
    pub fn from_bytes(bytes: &'a [u8]) -> Label<'a>
        ensures { result ≡ bytes.now }
    {
        Label(bytes)
    }

    /// Its bytes.
    pub fn as_slice(&self) -> &[u8]
        ensures { result.now ≡ self.now }
    {
        self.0
    }
}
