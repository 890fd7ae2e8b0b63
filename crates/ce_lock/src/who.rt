/// Who makes a call: an actor of a family.
#[derive(Clone, Copy, Debug, PartialEq, Eq)]
pub struct Who {
    /// The family, below the number of families of the book.
    pub family: u32,
    /// The actor, or `HOST` for the head of the family.
    pub actor: u32,
}
