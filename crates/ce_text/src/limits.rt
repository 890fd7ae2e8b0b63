/// A text that is read line by line has fewer bytes than this, so that 32 bits count its lines.
pub const TEXT_LIMIT: usize = 1 << 31;
