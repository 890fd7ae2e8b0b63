ghost use Rattle.std.specs.Prelude.{◌≡◌, IfOk, IsTrue};
ghost use Rattle.std.specs.String.{string_bytes};
ghost use Rattle.ce_script.specs.Names.{is_name};

use ce_model::NoMemory;
use std::alloc::Global;
use std::marker::Model;

/// A name of a user or an image: a letter, and letters, digits and `_` behind it, `NAME_ROOM` bytes
/// at most. Contracts see it as its bytes.
#[derive(Debug, Drop)]
pub struct Name {
    text: String,
}

impl Model for Name {
    ghost use Rattle.std.specs.Prelude.{List, ℕ, IsTrue};
    ghost use Rattle.std.specs.String.{string_bytes};
    ghost use Rattle.ce_script.specs.Names.{is_name};

    ghost Value = { List ℕ };

    ghost view = { λ name. string_bytes name.text };

    ghost invariant = { λ name. IsTrue (is_name (string_bytes name.text)) };
}

impl Name {
    /// The name of this text, which must be a name's.
    pub fn from_text(text: String) -> Name
        requires { IsTrue (is_name (string_bytes text)) }
        ensures { result ≡ string_bytes text }
    {
        Name { text }
    }

    /// The name with these letters, which must be a name's. `NoMemory` may come at any time.
    pub fn from_str(alloc: Global, text: &str) -> Result<Name, NoMemory>
        requires { IsTrue (is_name text.now) }
        ensures { IfOk result (λ name. name ≡ text.now) }
    {
        Ok(Name::from_text(String::from_str(alloc, text)?))
    }

    /// The name as text.
    pub fn as_str(&self) -> &str
        ensures bytes { result.now ≡ self.now }
        ensures name { IsTrue (is_name self.now) }
    {
        self.text.as_str()
    }

    /// The same name. `NoMemory` may come at any time.
    pub fn copy(&self, alloc: Global) -> Result<Name, NoMemory>
        ensures { IfOk result (λ name. name ≡ self.now) }
    {
        let text = String::from_str(alloc, self.text.as_str())?;
        Ok(Name { text })
    }
}
