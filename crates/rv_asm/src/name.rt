//! Names of labels and numbers.

ghost use Rattle.std.specs.Prelude.{◌≡◌};
ghost use Rattle.rv_asm.specs.Name.{is_name};

/// How many bytes a name has at most.
const NAME_ROOM: usize = 32;

/// Whether the bytes are a name: 1 to `NAME_ROOM` letters, digits and `_`, no digit first.
pub fn is_name(bytes: &[u8]) -> bool
    ensures { result ≡ is_name bytes.now }
{
    ce_text::is_name(bytes, NAME_ROOM)
}
