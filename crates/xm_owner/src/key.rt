ghost use Rattle.std.specs.Prelude.{◌≡◌};
ghost use Rattle.xm_owner.specs.Tables.{is_key_before};

/// Where a block is mapped: a process, and a window of it.
#[derive(Clone, Copy, Debug, PartialEq, Eq)]
pub(crate) struct Key {
    pub pid: u32,
    pub window: u32,
}

/// Whether the key `a` comes before the key `b`: by process, and in one process by window.
pub(crate) fn is_key_before(a: Key, b: Key) -> bool
    ensures { result ≡ is_key_before a b }
{
    a.pid < b.pid || (a.pid == b.pid && a.window < b.window)
}
