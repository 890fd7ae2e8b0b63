ghost use Rattle.std.specs.Prelude.{◌≡◌, ℕ};

/// What the daemon hands out for a node: it has its home there. A proof may know that a box is
/// clean, as it is when a new user gets it.
pub trait Homed: Drop {
    // the node that is its home
    ghost home: { Self → ℕ };

    // it is as new
    ghost clean: { Self → Type 0 };

    /// The number of the node that is its home.
    fn home(&self) -> u32
        ensures { result ≡ home self.now };
}

/// The number of a node, where nothing else is handed out for it.
impl Homed for u32 {
    ghost use Rattle.std.specs.Prelude.{⊤};

    ghost home = { λ node. node };

    ghost clean = { λ _. ⊤ };

    fn home(&self) -> u32 {
        *self
    }
}
