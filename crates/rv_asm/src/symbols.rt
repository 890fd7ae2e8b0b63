//! What names mean.

use ce_text::NameTable;

/// What a name means.
#[derive(Clone, Copy, Debug)]
pub enum Symbol {
    /// A label, by its address.
    Label(u32),
    /// A number that an `.equ` gave, from -2^31 to 2^32 - 1.
    Number(i64),
}

/// What each name means.
pub type Symbols = NameTable<Symbol>;
