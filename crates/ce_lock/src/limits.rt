//! How long a history can grow.

/// A history has fewer entries than this.
pub const HISTORY_LIMIT: u64 = 1 << 63;
